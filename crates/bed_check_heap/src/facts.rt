//! The rules claim, when and never.
ghost use Rattle.std.specs.Prelude.{◌≡◌, ◌∷◌, [], IfOk, slice_get};
ghost use Rattle.bed_deriv.specs.Checks.{first_failure, with_fact};
ghost use Rattle.bed_deriv.specs.HeapRules.{claim, case_split, never};
ghost use Rattle.bed_check_pure.specs.Faults.{AnswersRule};
ghost use Rattle.bed_check_heap.specs.Parts.{goal_and, cases_of};

use crate::remainder::{goal_and_state, two_states};
use bed_check_pure::{Fault, negated};
use bed_deriv::arguments::fact_given;
use bed_deriv::{DArg, Remainder, SymState};
use bed_lang::{List, Pure, Word};
use std::alloc::{AllocError, Global};

// The state with a copy of a fact.
fn with_copy(alloc: Global, s: &SymState, p: &Pure) -> Result<SymState, AllocError>
    ensures { IfOk result (λ r. r ≡ with_fact s.now p.now) }
{
    let fact = p.copy(alloc)?;
    s.with_fact(alloc, fact)
}

fn claimed(alloc: Global, s: &SymState, p: &Pure) -> Result<Remainder, AllocError>
    ensures { IfOk result (λ m. m ≡ goal_and p.now (with_fact s.now p.now)) }
{
    let state = with_copy(alloc, s, p)?;
    let goal = p.copy(alloc)?;
    goal_and_state(alloc, goal, state)
}

/// `claim[φ]`: the fact, and the rest with it.
pub(crate) fn claim(
    alloc: Global,
    s: &SymState,
    args: &[DArg],
    n: usize,
) -> Result<Remainder, Fault>
    ensures { AnswersRule result (first_failure (claim s.now args.now n)) }
{
    if args.len() != 1 || n != 2 {
        return Err(Fault::Count);
    }
    match fact_given(s, args, 0) {
        None => Err(Fault::Argument),
        Some(p) => match claimed(alloc, s, p) {
            Ok(left) => Ok(left),
            Err(_) => Err(Fault::Memory),
        },
    }
}

// The rest with a fact, and with another.
fn both_states(
    alloc: Global,
    s: &SymState,
    first: &Pure,
    second: &Pure,
) -> Result<Remainder, AllocError>
    ensures { IfOk result (λ m. m ≡ record { goals = []; states = with_fact s.now first.now ∷ with_fact s.now second.now ∷ [] }) }
{
    let with_first = with_copy(alloc, s, first)?;
    let with_second = with_copy(alloc, s, second)?;
    two_states(alloc, with_first, with_second)
}

// What `when` leaves, by the negation of its fact.
fn cases_of(alloc: Global, s: &SymState, p: &Pure, others: &[Pure]) -> Result<Remainder, Fault>
    ensures { AnswersRule result (first_failure (cases_of s.now p.now (slice_get others.now 0))) }
{
    match others.get(0) {
        None => Err(Fault::Condition),
        Some(other) => match both_states(alloc, s, p, other) {
            Ok(left) => Ok(left),
            Err(_) => Err(Fault::Memory),
        },
    }
}

/// `when[φ]`: the rest with the fact, and with its negation.
pub(crate) fn case_split(
    alloc: Global,
    s: &SymState,
    args: &[DArg],
    n: usize,
) -> Result<Remainder, Fault>
    ensures { AnswersRule result (first_failure (case_split s.now args.now n)) }
{
    if args.len() != 1 || n != 2 {
        return Err(Fault::Count);
    }
    match fact_given(s, args, 0) {
        None => Err(Fault::Argument),
        Some(p) => match negated(alloc, p) {
            Err(_) => Err(Fault::Memory),
            Ok(others) => cases_of(alloc, s, p, others.as_slice()),
        },
    }
}

fn falsehood(alloc: Global) -> Result<Remainder, AllocError>
    ensures { IfOk result (λ m. m ≡ record { goals = Pure.Equal (Word.Number 1) (Word.Number 0) ∷ []; states = [] }) }
{
    let mut goals = List::new(alloc);
    goals.push(Pure::Equal(Word::Number(1), Word::Number(0)))?;
    Ok(Remainder {
        goals,
        states: List::new(alloc),
    })
}

/// `never`: `1 = 0`, which closes the rest.
pub(crate) fn never(alloc: Global, args: &[DArg], n: usize) -> Result<Remainder, Fault>
    ensures { AnswersRule result (first_failure (never args.now n)) }
{
    if args.len() != 0 || n != 1 {
        return Err(Fault::Count);
    }
    match falsehood(alloc) {
        Ok(left) => Ok(left),
        Err(_) => Err(Fault::Memory),
    }
}
