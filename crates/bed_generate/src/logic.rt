//! Assertions and signatures.
ghost use Rattle.std.specs.Prelude.{◌≡◌, ◌≤◌, ◌∷◌, [], codes, IfOk};
ghost use Rattle.bed_lang.specs.Prelude.{word as variable_of};
ghost use Rattle.bed_generate.specs.Generated.{old_value as old_value_of, answer, assertion as assertion_of, fact as fact_of, signature as signature_of, counted as counted_of, answered as answered_of};

use crate::leaves::{old_value, one, one_name, signature_name, variable};
use bed_lang::{Assertion, List, Name, Pure, Signature, Term, Var, Word};
use std::alloc::{AllocError, Global};

// An assertion of one term.
fn only(alloc: Global, term: Term) -> Result<Assertion, AllocError>
    ensures { IfOk result (λ a. a ≡ assertion_of (term ∷ [])) }
{
    let terms = one(alloc, term)?;
    Ok(Assertion {
        at: 0,
        binders: List::new(alloc),
        terms,
    })
}

// The fact `result = n`.
fn returns_argument(alloc: Global) -> Result<Term, AllocError>
    ensures { IfOk result (λ t. t ≡ fact_of (Pure.Equal answer (variable_of (codes "n")))) }
{
    let argument = variable(alloc, b"n")?;
    Ok(Term::Pure(Pure::Equal(Word::Var(Var::Answer(0)), argument)))
}

// The fact that a variable is an argument's value at entry.
fn is_old(alloc: Global, variable_name: &[u8], argument: &[u8]) -> Result<Term, AllocError>
    ensures { IfOk result (λ t. t ≡ fact_of (Pure.Equal (variable_of variable_name.now) (old_value_of argument.now))) }
{
    let left = variable(alloc, variable_name)?;
    let right = old_value(alloc, argument)?;
    Ok(Term::Pure(Pure::Equal(left, right)))
}

// The fact `i <= n`.
fn is_within(alloc: Global) -> Result<Term, AllocError>
    ensures { IfOk result (λ t. t ≡ fact_of (Pure.AtMost (variable_of (codes "i")) (variable_of (codes "n")))) }
{
    let left = variable(alloc, b"i")?;
    let right = variable(alloc, b"n")?;
    Ok(Term::Pure(Pure::AtMost(left, right)))
}

// The terms of the invariant of the counting loop.
fn counted_terms(alloc: Global) -> Result<List<Term>, AllocError>
    ensures { IfOk result (λ r. r ≡ counted_of.terms) }
{
    let mut out = one(alloc, is_within(alloc)?)?;
    out.push(is_old(alloc, b"n", b"n")?)?;
    Ok(out)
}

/// The invariant of the counting loop.
pub(crate) fn counted(alloc: Global) -> Result<Assertion, AllocError>
    ensures { IfOk result (λ a. a ≡ counted_of) }
{
    let terms = counted_terms(alloc)?;
    Ok(Assertion {
        at: 0,
        binders: List::new(alloc),
        terms,
    })
}

/// What holds after a call.
pub(crate) fn answered(alloc: Global) -> Result<Assertion, AllocError>
    ensures { IfOk result (λ a. a ≡ answered_of) }
{
    only(alloc, is_old(alloc, b"x", b"n")?)
}

// The precondition and the postcondition of each function.
fn promises(alloc: Global) -> Result<(Assertion, Assertion), AllocError>
    ensures { IfOk result (λ r. r ≡ (assertion_of (Term.Emp ∷ []), assertion_of (fact_of (Pure.Equal answer (variable_of (codes "n"))) ∷ []))) }
{
    let pre = only(alloc, Term::Emp)?;
    let post = only(alloc, returns_argument(alloc)?)?;
    Ok((pre, post))
}

// The name of a signature, and its parameter.
fn head(alloc: Global, number: u32) -> Result<(Name, List<Name>), AllocError>
    ensures { IfOk result (λ r. r ≡ ((signature_of number).name, (signature_of number).params)) }
{
    let name = signature_name(alloc, number)?;
    let params = one_name(alloc, b"n")?;
    Ok((name, params))
}

/// A signature by its number.
pub(crate) fn signature(alloc: Global, number: u32) -> Result<Signature, AllocError>
    requires least { 1 ≤ number }
    requires most { number ≤ 200 }
    ensures { IfOk result (λ s. s ≡ signature_of number) }
{
    let (name, params) = head(alloc, number)?;
    let (pre, post) = promises(alloc)?;
    Ok(Signature {
        name,
        params,
        reserve: 3 * number - 2,
        logical: List::new(alloc),
        pre,
        post,
    })
}
