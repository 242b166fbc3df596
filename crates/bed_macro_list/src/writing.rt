//! Bodies with each `find` and `walk` in them written out.

ghost use Rattle.std.specs.Prelude.{◌≡◌, ◌∷◌, ◌++◌, [], IfOk, OnOk, Some, None};
ghost use Rattle.bed_table.specs.ListLoops.{list_invariant, not_yet, is_key as is_key_of};
ghost use Rattle.bed_sat.specs.Written.{statement as statement_of, made_test, list_loop, written_statement, written as written_body};

use crate::invariants::invariant;
use crate::statements::{is_key, push_list_loop};
use bed_lang::{Assertion, Join, List, Name, Operand, Seq, Stmt, StmtKind, Test, both};
use std::alloc::{AllocError, Global};

// Appends a copy of a statement.
fn push_copy(alloc: Global, s: &Stmt, out: &mut List<Stmt>) -> Result<(), AllocError>
    ensures { OnOk result (out.new ≡ out.old ++ s.now ∷ []) }
{
    out.push(s.copy(alloc)?)
}

// Appends an `if`.
fn push_if(
    alloc: Global,
    at: u32,
    test: &Test,
    yes: List<Stmt>,
    no: List<Stmt>,
    join: &Option<Join>,
    out: &mut List<Stmt>,
) -> Result<(), AllocError>
    ensures { OnOk result (out.new ≡ out.old ++ statement_of at (StmtKind.If test.now yes no join.now) ∷ []) }
{
    let (test, join) = both(alloc, test, join)?;
    out.push(Stmt {
        at,
        kind: StmtKind::If {
            test,
            yes,
            no,
            join,
        },
    })
}

// Appends a `while`.
fn push_while(
    alloc: Global,
    at: u32,
    test: &Test,
    place: u32,
    invariant: &Assertion,
    body: List<Stmt>,
    out: &mut List<Stmt>,
) -> Result<(), AllocError>
    ensures { OnOk result (out.new ≡ out.old ++ statement_of at (StmtKind.While test.now place invariant.now body) ∷ []) }
{
    let (test, invariant) = both(alloc, test, invariant)?;
    out.push(Stmt {
        at,
        kind: StmtKind::While {
            test,
            place,
            invariant,
            body,
        },
    })
}

// The test of a node's value against a key, over a body.
fn on_key(
    alloc: Global,
    at: u32,
    value: &Name,
    key: &Operand,
    body: List<Stmt>,
) -> Result<List<Stmt>, AllocError>
    ensures { IfOk result (λ r. r ≡ statement_of at (StmtKind.If (made_test at (is_key_of value.now key.now)) body [] None) ∷ []) }
{
    let test = is_key(alloc, at, value, key)?;
    let mut out = List::new(alloc);
    out.push(Stmt {
        at,
        kind: StmtKind::If {
            test,
            yes: body,
            no: List::new(alloc),
            join: None,
        },
    })?;
    Ok(out)
}

// Appends the statements of a `find`.
fn push_find(
    alloc: Global,
    at: u32,
    node: &Name,
    value: &Name,
    key: &Operand,
    list: &Name,
    seq: &Seq,
    seen: &Name,
    rest: &Name,
    keep: &Assertion,
    body: List<Stmt>,
    out: &mut List<Stmt>,
) -> Result<(), AllocError>
    ensures { OnOk result (out.new ≡ out.old ++ list_loop at node.now value.now list.now (list_invariant node.now list.now seq.now seen.now rest.now (not_yet key.now seen.now) keep.now) (statement_of at (StmtKind.If (made_test at (is_key_of value.now key.now)) body [] None) ∷ [])) }
{
    let visit = on_key(alloc, at, value, key, body)?;
    let invariant = invariant(alloc, node, list, seq, seen, rest, Some(key), keep)?;
    push_list_loop(alloc, at, node, value, list, invariant, visit, out)
}

// Appends the statements of a `walk`.
fn push_walk(
    alloc: Global,
    at: u32,
    node: &Name,
    value: &Name,
    list: &Name,
    seq: &Seq,
    seen: &Name,
    rest: &Name,
    keep: &Assertion,
    body: List<Stmt>,
    out: &mut List<Stmt>,
) -> Result<(), AllocError>
    ensures { OnOk result (out.new ≡ out.old ++ list_loop at node.now value.now list.now (list_invariant node.now list.now seq.now seen.now rest.now [] keep.now) body) }
{
    let invariant = invariant(alloc, node, list, seq, seen, rest, None, keep)?;
    push_list_loop(alloc, at, node, value, list, invariant, body, out)
}

// Appends what a statement stands for.
#[cycle(writing)]
fn push_written(alloc: Global, s: &Stmt, out: &mut List<Stmt>) -> Result<(), AllocError>
    ensures { OnOk result (out.new ≡ out.old ++ written_statement s.now) }
{
    match &s.kind {
        StmtKind::If {
            test,
            yes,
            no,
            join,
        } => {
            let yes = body(alloc, yes.as_slice())?;
            let no = body(alloc, no.as_slice())?;
            push_if(alloc, s.at, test, yes, no, join, out)
        }
        StmtKind::While {
            test,
            place,
            invariant,
            body: inside,
        } => {
            let inside = body(alloc, inside.as_slice())?;
            push_while(alloc, s.at, test, *place, invariant, inside, out)
        }
        StmtKind::Find {
            node,
            value,
            key,
            list,
            seq,
            seen,
            rest,
            keep,
            body: inside,
        } => {
            let inside = body(alloc, inside.as_slice())?;
            push_find(
                alloc, s.at, node, value, key, list, seq, seen, rest, keep, inside, out,
            )
        }
        StmtKind::Walk {
            node,
            value,
            list,
            seq,
            seen,
            rest,
            keep,
            body: inside,
        } => {
            let inside = body(alloc, inside.as_slice())?;
            push_walk(
                alloc, s.at, node, value, list, seq, seen, rest, keep, inside, out,
            )
        }
        StmtKind::Assign(_, _) => push_copy(alloc, s, out),
        StmtKind::Compute(_, _, _, _) => push_copy(alloc, s, out),
        StmtKind::Load(_, _) => push_copy(alloc, s, out),
        StmtKind::LoadByte(_, _) => push_copy(alloc, s, out),
        StmtKind::Store(_, _) => push_copy(alloc, s, out),
        StmtKind::StoreByte(_, _) => push_copy(alloc, s, out),
        StmtKind::Call { .. } => push_copy(alloc, s, out),
        StmtKind::Return(_) => push_copy(alloc, s, out),
        StmtKind::Hint(_) => push_copy(alloc, s, out),
    }
}

// What the statements of a body stand for.
#[cycle(writing)]
fn body(alloc: Global, statements: &[Stmt]) -> Result<List<Stmt>, AllocError>
    ensures { IfOk result (λ r. r ≡ written_body statements.now) }
{
    let mut out = List::new(alloc);
    for s in statements {
        push_written(alloc, s, &mut out)?;
    }
    Ok(out)
}

/// The statements of a body, with each `find` and `walk` in them, at any depth, written out.
///
/// # Errors
/// `AllocError` for want of memory.
pub fn written(alloc: Global, statements: &List<Stmt>) -> Result<List<Stmt>, AllocError>
    ensures { IfOk result (λ r. r ≡ written_body statements.now) }
{
    body(alloc, statements.as_slice())
}
