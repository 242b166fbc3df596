//! The bodies of the functions.
ghost use Rattle.std.specs.Prelude.{◌≡◌, ◌∷◌, ◌++◌, [], None, codes, IfOk, OnOk};
ghost use Rattle.bed_lang.specs.Prelude.{name as name_of};
ghost use Rattle.bed_generate.specs.Generated.{function_name as function_name_of, local as local_at, statement as statement_of, below as below_of, counted as counted_of, increase as increase_of, counting as counting_of, answered as answered_of, calling as calling_of};

use crate::leaves::{function_name, local, name, one, one_local};
use crate::logic::{answered, counted};
use bed_lang::{Assertion, List, Name, Op, Operand, Rel, Stmt, StmtKind, Test};
use std::alloc::{AllocError, Global};

// Appends a statement.
fn push(kind: StmtKind, out: &mut List<Stmt>) -> Result<(), AllocError>
    ensures { OnOk result (out.new ≡ out.old ++ statement_of kind ∷ []) }
{
    out.push(Stmt { at: 0, kind })
}

// Appends `i <- 0;`.
fn push_start(alloc: Global, out: &mut List<Stmt>) -> Result<(), AllocError>
    ensures { OnOk result (out.new ≡ out.old ++ statement_of (StmtKind.Assign (name_of (codes "i")) (Operand.Number 0)) ∷ []) }
{
    let counter = name(alloc, b"i")?;
    push(StmtKind::Assign(counter, Operand::Number(0)), out)
}

// Appends that a local is returned.
fn push_return(alloc: Global, bytes: &[u8], out: &mut List<Stmt>) -> Result<(), AllocError>
    ensures { OnOk result (out.new ≡ out.old ++ statement_of (StmtKind.Return (local_at bytes.now)) ∷ []) }
{
    let operand = local(alloc, bytes)?;
    push(StmtKind::Return(operand), out)
}

// The statement `i <- i + 1;`.
fn increase(alloc: Global) -> Result<List<Stmt>, AllocError>
    ensures { IfOk result (λ r. r ≡ increase_of ∷ []) }
{
    let counter = name(alloc, b"i")?;
    let value = local(alloc, b"i")?;
    one(
        alloc,
        Stmt {
            at: 0,
            kind: StmtKind::Compute(counter, Op::Add, value, Operand::Number(1)),
        },
    )
}

// The test `i < n`.
fn below(alloc: Global) -> Result<Test, AllocError>
    ensures { IfOk result (λ t. t ≡ below_of) }
{
    let left = local(alloc, b"i")?;
    let right = local(alloc, b"n")?;
    Ok(Test {
        at: 0,
        rel: Rel::Less,
        left,
        right,
    })
}

// The invariant and the body of the loop.
fn kept(alloc: Global) -> Result<(Assertion, List<Stmt>), AllocError>
    ensures { IfOk result (λ r. r ≡ (counted_of, increase_of ∷ [])) }
{
    let invariant = counted(alloc)?;
    let body = increase(alloc)?;
    Ok((invariant, body))
}

// Appends the loop.
fn push_loop(alloc: Global, out: &mut List<Stmt>) -> Result<(), AllocError>
    ensures { OnOk result (out.new ≡ out.old ++ statement_of (StmtKind.While below_of 0 counted_of (increase_of ∷ [])) ∷ []) }
{
    let test = below(alloc)?;
    let (invariant, body) = kept(alloc)?;
    push(
        StmtKind::While {
            test,
            place: 0,
            invariant,
            body,
        },
        out,
    )
}

/// The body that counts up to its argument.
pub(crate) fn counting(alloc: Global) -> Result<List<Stmt>, AllocError>
    ensures { IfOk result (λ r. r ≡ counting_of) }
{
    let mut out = List::new(alloc);
    push_start(alloc, &mut out)?;
    push_loop(alloc, &mut out)?;
    push_return(alloc, b"i", &mut out)?;
    Ok(out)
}

// The local that a call sets, and the callee.
fn callee(alloc: Global, number: u32) -> Result<(Name, Operand), AllocError>
    ensures { IfOk result (λ r. r ≡ (name_of (codes "x"), Operand.Label (function_name_of number))) }
{
    let into = name(alloc, b"x")?;
    let target = function_name(alloc, number)?;
    Ok((into, Operand::Label(target)))
}

// The argument of a call, and what holds after it.
fn passed(alloc: Global) -> Result<(List<Operand>, Assertion), AllocError>
    ensures { IfOk result (λ r. r ≡ (local_at (codes "n") ∷ [], answered_of)) }
{
    let args = one_local(alloc, b"n")?;
    let after = answered(alloc)?;
    Ok((args, after))
}

// The call of a function by its number.
fn call(alloc: Global, number: u32) -> Result<StmtKind, AllocError>
    ensures { IfOk result (λ r. r ≡ StmtKind.Call 0 (name_of (codes "x")) (Operand.Label (function_name_of number)) None (local_at (codes "n") ∷ []) [] answered_of) }
{
    let (into, target) = callee(alloc, number)?;
    let (args, after) = passed(alloc)?;
    Ok(StmtKind::Call {
        place: 0,
        into,
        target,
        via: None,
        args,
        hints: List::new(alloc),
        after,
    })
}

/// The body that calls a function by its number and returns what that returned.
pub(crate) fn calling(alloc: Global, number: u32) -> Result<List<Stmt>, AllocError>
    ensures { IfOk result (λ r. r ≡ calling_of number) }
{
    let mut out = List::new(alloc);
    push(call(alloc, number)?, &mut out)?;
    push_return(alloc, b"x", &mut out)?;
    Ok(out)
}
