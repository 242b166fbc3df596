//! The rules divide and merge.
ghost use Rattle.std.specs.Prelude.{◌≡◌, IfOk, OnOk};
ghost use Rattle.bed_deriv.specs.Checks.{first_failure};
ghost use Rattle.bed_deriv.specs.HeapRules.{with_atom, divide, merge};
ghost use Rattle.bed_check_pure.specs.Faults.{AnswersRule};
ghost use Rattle.bed_check_heap.specs.Parts.{goal_and, divided_state, divided, divide_atom, divide_from, merged_state, merge_blocks, merge_atoms, merge_from};

use crate::atoms::{add_atom, add_block, both_taken, taken};
use crate::remainder::goal_and_state;
use crate::words::{difference, end_of, sum};
use bed_check_pure::Fault;
use bed_deriv::arguments::{number_at, numbered, word_at};
use bed_deriv::{DArg, Remainder, SymState};
use bed_lang::{Atom, Pure, Word};
use std::alloc::{AllocError, Global};

// The second part of a block that is divided after m words.
fn second_part(alloc: Global, e: &Word, k: &Word, m: &Word) -> Result<Atom, AllocError>
    ensures { IfOk result (λ r. r ≡ Atom.Block (Word.Add e.now (Word.Times 4 m.now)) (Word.Sub k.now m.now)) }
{
    let start = end_of(alloc, e, m)?;
    let words = difference(alloc, k, m)?;
    Ok(Atom::Block(start, words))
}

fn add_second_part(
    alloc: Global,
    s: &mut SymState,
    e: &Word,
    k: &Word,
    m: &Word,
) -> Result<(), AllocError>
    ensures { OnOk result (s.new ≡ with_atom s.old (Atom.Block (Word.Add e.now (Word.Times 4 m.now)) (Word.Sub k.now m.now))) }
{
    let part = second_part(alloc, e, k, m)?;
    add_atom(s, part)
}

// The state with block i divided, of k words from address e, the first part of m words.
fn divided_state(
    alloc: Global,
    s: &SymState,
    i: u32,
    e: &Word,
    k: &Word,
    m: &Word,
) -> Result<SymState, AllocError>
    ensures { IfOk result (λ r. r ≡ divided_state s.now i e.now k.now m.now) }
{
    let mut state = taken(alloc, s, i)?;
    add_block(alloc, &mut state, e, m)?;
    add_second_part(alloc, &mut state, e, k, m)?;
    Ok(state)
}

fn at_most(alloc: Global, m: &Word, k: &Word) -> Result<Pure, AllocError>
    ensures { IfOk result (λ r. r ≡ Pure.AtMost m.now k.now) }
{
    let m = m.copy(alloc)?;
    let k = k.copy(alloc)?;
    Ok(Pure::AtMost(m, k))
}

fn where_at_most(
    alloc: Global,
    m: &Word,
    k: &Word,
    state: SymState,
) -> Result<Remainder, AllocError>
    ensures { IfOk result (λ r. r ≡ goal_and (Pure.AtMost m.now k.now) state) }
{
    let goal = at_most(alloc, m, k)?;
    goal_and_state(alloc, goal, state)
}

// What `divide` leaves of block i.
fn divided(
    alloc: Global,
    s: &SymState,
    i: u32,
    e: &Word,
    k: &Word,
    m: &Word,
) -> Result<Remainder, AllocError>
    ensures { IfOk result (λ r. r ≡ divided s.now i e.now k.now m.now) }
{
    let state = divided_state(alloc, s, i, e, k, m)?;
    where_at_most(alloc, m, k, state)
}

fn divide_atom(alloc: Global, s: &SymState, i: u32, x: &Atom, m: &Word) -> Result<Remainder, Fault>
    ensures { AnswersRule result (first_failure (divide_atom s.now i x.now m.now)) }
{
    match x {
        Atom::Block(e, k) => match divided(alloc, s, i, e, k, m) {
            Ok(left) => Ok(left),
            Err(_) => Err(Fault::Memory),
        },
        _ => Err(Fault::Condition),
    }
}

fn divide_from(
    alloc: Global,
    s: &SymState,
    args: &[DArg],
    i: u32,
    x: &Atom,
) -> Result<Remainder, Fault>
    ensures { AnswersRule result (first_failure (divide_from s.now args.now i x.now)) }
{
    match word_at(alloc, s, args, 1) {
        Err(_) => Err(Fault::Memory),
        Ok(None) => Err(Fault::Argument),
        Ok(Some(m)) => divide_atom(alloc, s, i, x, &m),
    }
}

/// `divide[i, m]`: block i in two, the first of m words, which it must have.
pub(crate) fn divide(
    alloc: Global,
    s: &SymState,
    args: &[DArg],
    n: usize,
) -> Result<Remainder, Fault>
    ensures { AnswersRule result (first_failure (divide s.now args.now n)) }
{
    if args.len() != 2 || n != 2 {
        return Err(Fault::Count);
    }
    match number_at(args, 0) {
        None => Err(Fault::Argument),
        Some(i) => match numbered(s.atoms.as_slice(), i) {
            None => Err(Fault::Argument),
            Some(x) => divide_from(alloc, s, args, i, x),
        },
    }
}

fn add_merged(
    alloc: Global,
    s: &mut SymState,
    e: &Word,
    k: &Word,
    l: &Word,
) -> Result<(), AllocError>
    ensures { OnOk result (s.new ≡ with_atom s.old (Atom.Block e.now (Word.Add k.now l.now))) }
{
    let words = sum(alloc, k, l)?;
    add_block(alloc, s, e, &words)
}

// The state with one block at e in place of blocks i and j, of k and of l words.
fn merged_state(
    alloc: Global,
    s: &SymState,
    i: u32,
    j: u32,
    e: &Word,
    k: &Word,
    l: &Word,
) -> Result<SymState, AllocError>
    ensures { IfOk result (λ r. r ≡ merged_state s.now i j e.now k.now l.now) }
{
    let mut state = both_taken(alloc, s, i, j)?;
    add_merged(alloc, &mut state, e, k, l)?;
    Ok(state)
}

// That f is where k words from address e end.
fn follows(alloc: Global, e: &Word, k: &Word, f: &Word) -> Result<Pure, AllocError>
    ensures { IfOk result (λ r. r ≡ Pure.Equal f.now (Word.Add e.now (Word.Times 4 k.now))) }
{
    let address = f.copy(alloc)?;
    let end = end_of(alloc, e, k)?;
    Ok(Pure::Equal(address, end))
}

fn where_follows(
    alloc: Global,
    e: &Word,
    k: &Word,
    f: &Word,
    state: SymState,
) -> Result<Remainder, AllocError>
    ensures { IfOk result (λ r. r ≡ goal_and (Pure.Equal f.now (Word.Add e.now (Word.Times 4 k.now))) state) }
{
    let goal = follows(alloc, e, k, f)?;
    goal_and_state(alloc, goal, state)
}

// What `merge` leaves of blocks i and j, of k words from address e and of l words from f.
fn merged(
    alloc: Global,
    s: &SymState,
    i: u32,
    j: u32,
    e: &Word,
    k: &Word,
    f: &Word,
    l: &Word,
) -> Result<Remainder, AllocError>
    ensures { IfOk result (λ r. r ≡ goal_and (Pure.Equal f.now (Word.Add e.now (Word.Times 4 k.now))) (merged_state s.now i j e.now k.now l.now)) }
{
    let state = merged_state(alloc, s, i, j, e, k, l)?;
    where_follows(alloc, e, k, f, state)
}

// What `merge` leaves of block i, of k words from address e, and another atom j.
fn merge_blocks(
    alloc: Global,
    s: &SymState,
    i: u32,
    j: u32,
    e: &Word,
    k: &Word,
    y: &Atom,
) -> Result<Remainder, Fault>
    ensures { AnswersRule result (first_failure (merge_blocks s.now i j e.now k.now y.now)) }
{
    match y {
        Atom::Block(f, l) => match merged(alloc, s, i, j, e, k, f, l) {
            Ok(left) => Ok(left),
            Err(_) => Err(Fault::Memory),
        },
        _ => Err(Fault::Condition),
    }
}

fn merge_atoms(
    alloc: Global,
    s: &SymState,
    i: u32,
    j: u32,
    x: &Atom,
    y: &Atom,
) -> Result<Remainder, Fault>
    ensures { AnswersRule result (first_failure (merge_atoms s.now i j x.now y.now)) }
{
    if i == j {
        return Err(Fault::Condition);
    }
    match x {
        Atom::Block(e, k) => merge_blocks(alloc, s, i, j, e, k, y),
        _ => Err(Fault::Condition),
    }
}

fn merge_from(
    alloc: Global,
    s: &SymState,
    args: &[DArg],
    i: u32,
    x: &Atom,
) -> Result<Remainder, Fault>
    ensures { AnswersRule result (first_failure (merge_from s.now args.now i x.now)) }
{
    match number_at(args, 1) {
        None => Err(Fault::Argument),
        Some(j) => match numbered(s.atoms.as_slice(), j) {
            None => Err(Fault::Argument),
            Some(y) => merge_atoms(alloc, s, i, j, x, y),
        },
    }
}

/// `merge[i, j]`: two different blocks as one, where j starts at the end of i.
pub(crate) fn merge(
    alloc: Global,
    s: &SymState,
    args: &[DArg],
    n: usize,
) -> Result<Remainder, Fault>
    ensures { AnswersRule result (first_failure (merge s.now args.now n)) }
{
    if args.len() != 2 || n != 2 {
        return Err(Fault::Count);
    }
    match number_at(args, 0) {
        None => Err(Fault::Argument),
        Some(i) => match numbered(s.atoms.as_slice(), i) {
            None => Err(Fault::Argument),
            Some(x) => merge_from(alloc, s, args, i, x),
        },
    }
}
