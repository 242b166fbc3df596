//! The rule shape: cells, bytes and blocks in place of one another.
ghost use Rattle.std.specs.Prelude.{◌≡◌, ◌<◌, ◌+◌, ◌∷◌, ◌++◌, [], IfOk, OnOk};
ghost use Rattle.bed_deriv.specs.Arguments.{numbered};
ghost use Rattle.bed_deriv.specs.Checks.{Given, Needs, first_failure, with_fact};
ghost use Rattle.bed_deriv.specs.Matches.{all_different};
ghost use Rattle.bed_deriv.specs.HeapRules.{taken, with_next, shapes, bytes_at, shape_of, shape, cell_to_bytes, bytes_to_cell, four_chosen, follows, four_bytes, fresh_word, with_atom, block_to_cell, cell_to_block, drop_block};
ghost use Rattle.bed_check_heap.specs.Parts.{AnswersRoom, only, goal_and, bytes_made, bytes_of_cell, cell_of_block, cell_from_block, block_of_cell, block_from_cell, without_block, block_dropped, last_bytes, bytes_joined, cell_joined};

use crate::atoms::{add_atom, add_cell, taken, without_chosen};
use crate::remainder::{equal_and_state, goals_and_state, only_state};
use crate::words::{four_bytes, fresh_word, plus};
use bed_check_pure::Fault;
use bed_deriv::arguments::{number_at, numbered};
use bed_deriv::choice::{all_different, chosen};
use bed_deriv::{DArg, Remainder, SymState};
use bed_lang::{Atom, List, Pure, Word};
use std::alloc::{AllocError, Global};

// The state without atom i, and with the numbers of more fresh variables.
fn with_fresh(alloc: Global, s: &SymState, i: u32, count: u32) -> Result<SymState, AllocError>
    requires { s.now.next + count < 4294967296 }
    ensures { IfOk result (λ r. r ≡ with_next (taken s.now i) count) }
{
    let mut state = taken(alloc, s, i)?;
    state.next = s.next + count;
    Ok(state)
}

// ---- from a cell to its bytes

// The word of four bytes whose contents are fresh variables from f on.
fn fresh_sum(alloc: Global, f: u32) -> Result<Word, AllocError>
    requires { f + 3 < 4294967296 }
    ensures { IfOk result (λ r. r ≡ four_bytes (fresh_word f) (fresh_word (f + 1)) (fresh_word (f + 2)) (fresh_word (f + 3))) }
{
    let first = fresh_word(f);
    let second = fresh_word(f + 1);
    let third = fresh_word(f + 2);
    let fourth = fresh_word(f + 3);
    four_bytes(alloc, &first, &second, &third, &fourth)
}

// That a cell's content is the word of its four bytes, whose contents are fresh variables from f on.
fn content_of_bytes(alloc: Global, v: &Word, f: u32) -> Result<Pure, AllocError>
    requires { f + 3 < 4294967296 }
    ensures { IfOk result (λ r. r ≡ Pure.Equal v.now (four_bytes (fresh_word f) (fresh_word (f + 1)) (fresh_word (f + 2)) (fresh_word (f + 3)))) }
{
    let content = v.copy(alloc)?;
    let sum = fresh_sum(alloc, f)?;
    Ok(Pure::Equal(content, sum))
}

// Adds that fact.
fn add_content(alloc: Global, s: &mut SymState, v: &Word, f: u32) -> Result<(), AllocError>
    requires { f + 3 < 4294967296 }
    ensures { OnOk result (s.new ≡ with_fact s.old (Pure.Equal v.now (four_bytes (fresh_word f) (fresh_word (f + 1)) (fresh_word (f + 2)) (fresh_word (f + 3))))) }
{
    let fact = content_of_bytes(alloc, v, f)?;
    s.facts.push(fact)
}

// Puts a byte of a fresh content at the end, k behind an address.
fn add_byte(alloc: Global, s: &mut SymState, e: &Word, k: u32, f: u32) -> Result<(), AllocError>
    ensures { OnOk result (s.new ≡ with_atom s.old (Atom.Byte (Word.Add e.now (Word.Number k)) (fresh_word f))) }
{
    let address = plus(alloc, e, k)?;
    add_atom(s, Atom::Byte(address, fresh_word(f)))
}

// Puts four bytes at the end, from an address on, of fresh contents from f on.
fn add_bytes(alloc: Global, s: &mut SymState, e: &Word, f: u32) -> Result<(), AllocError>
    requires { f + 3 < 4294967296 }
    ensures { OnOk result (s.new ≡ bytes_at s.old e.now f) }
{
    let address = e.copy(alloc)?;
    add_atom(s, Atom::Byte(address, fresh_word(f)))?;
    add_byte(alloc, s, e, 1, f + 1)?;
    add_byte(alloc, s, e, 2, f + 2)?;
    add_byte(alloc, s, e, 3, f + 3)
}

// The state with four bytes in place of cell i, at e with content v.
fn bytes_made(
    alloc: Global,
    s: &SymState,
    i: u32,
    e: &Word,
    v: &Word,
) -> Result<SymState, AllocError>
    requires { s.now.next + 4 < 4294967296 }
    ensures { IfOk result (λ r. r ≡ bytes_made s.now i e.now v.now) }
{
    let mut state = with_fresh(alloc, s, i, 4)?;
    add_bytes(alloc, &mut state, e, s.next)?;
    add_content(alloc, &mut state, v, s.next)?;
    Ok(state)
}

fn bytes_left(
    alloc: Global,
    s: &SymState,
    i: u32,
    e: &Word,
    v: &Word,
) -> Result<Remainder, AllocError>
    requires { s.now.next + 4 < 4294967296 }
    ensures { IfOk result (λ r. r ≡ only (bytes_made s.now i e.now v.now)) }
{
    let state = bytes_made(alloc, s, i, e, v)?;
    only_state(alloc, state)
}

#[tactic(auto, using(crate::proofs::RoomLaws::full_fails))]
fn bytes_of_cell(alloc: Global, s: &SymState, i: u32, x: &Atom) -> Result<Remainder, Fault>
    ensures { AnswersRoom result (first_failure (bytes_of_cell s.now i x.now)) }
{
    match x {
        Atom::Cell(e, v) => {
            if s.next > u32::MAX - 4 {
                return Err(Fault::Condition);
            }
            match bytes_left(alloc, s, i, e, v) {
                Ok(left) => Ok(left),
                Err(_) => Err(Fault::Memory),
            }
        }
        _ => Err(Fault::Condition),
    }
}

// `shape[1, i]`: a cell becomes four bytes, and its content is their sum.
fn cell_to_bytes(alloc: Global, s: &SymState, args: &[DArg], n: usize) -> Result<Remainder, Fault>
    ensures { AnswersRoom result (first_failure (cell_to_bytes s.now args.now n)) }
{
    if args.len() != 2 || n != 1 {
        return Err(Fault::Count);
    }
    match number_at(args, 1) {
        None => Err(Fault::Argument),
        Some(i) => match numbered(s.atoms.as_slice(), i) {
            None => Err(Fault::Argument),
            Some(x) => bytes_of_cell(alloc, s, i, x),
        },
    }
}

// ---- from four bytes to a cell

// `f = e + k`.
fn follows(alloc: Global, e: &Word, f: &Word, k: u32) -> Result<Pure, AllocError>
    ensures { IfOk result (λ r. r ≡ follows e.now f.now k) }
{
    let address = f.copy(alloc)?;
    let place = plus(alloc, e, k)?;
    Ok(Pure::Equal(address, place))
}

fn add_follows(
    alloc: Global,
    goals: &mut List<Pure>,
    e: &Word,
    f: &Word,
    k: u32,
) -> Result<(), AllocError>
    ensures { OnOk result (goals.new ≡ goals.old ++ follows e.now f.now k ∷ []) }
{
    let goal = follows(alloc, e, f, k)?;
    goals.push(goal)
}

// That a cell fits at an address.
fn add_place(alloc: Global, goals: &mut List<Pure>, a: &Word) -> Result<(), AllocError>
    ensures { OnOk result (goals.new ≡ goals.old ++ Pure.AtMost a.now (Word.Number 4294967292) ∷ []) }
{
    let address = a.copy(alloc)?;
    goals.push(Pure::AtMost(address, Word::Number(4_294_967_292)))
}

// That three addresses follow one, at which a cell fits.
fn joined_goals(
    alloc: Global,
    a: &Word,
    b: &Word,
    c: &Word,
    e: &Word,
) -> Result<List<Pure>, AllocError>
    ensures { IfOk result (λ r. r ≡ Pure.AtMost a.now (Word.Number 4294967292) ∷ follows a.now b.now 1 ∷ follows a.now c.now 2 ∷ follows a.now e.now 3 ∷ []) }
{
    let mut goals = List::new(alloc);
    add_place(alloc, &mut goals, a)?;
    add_follows(alloc, &mut goals, a, b, 1)?;
    add_follows(alloc, &mut goals, a, c, 2)?;
    add_follows(alloc, &mut goals, a, e, 3)?;
    Ok(goals)
}

// A byte's address and its content.
type Byte<'a> = (&'a Word, &'a Word);

// Puts the cell of four bytes at the end.
fn add_joined(
    alloc: Global,
    s: &mut SymState,
    first: Byte<'_>,
    second: &Word,
    third: &Word,
    fourth: &Word,
) -> Result<(), AllocError>
    ensures { OnOk result (s.new ≡ with_atom s.old (Atom.Cell first.entry.0.now (four_bytes first.entry.1.now second.now third.now fourth.now))) }
{
    let content = four_bytes(alloc, first.1, second, third, fourth)?;
    add_cell(alloc, s, first.0, &content)
}

// The state with a cell in place of four chosen bytes.
fn cell_joined(
    alloc: Global,
    s: &SymState,
    cs: &[(u32, Atom)],
    first: Byte<'_>,
    second: &Word,
    third: &Word,
    fourth: &Word,
) -> Result<SymState, AllocError>
    ensures { IfOk result (λ r. r ≡ cell_joined s.now cs.now first.entry.0.now first.entry.1.now second.now third.now fourth.now) }
{
    let mut state = without_chosen(alloc, s, cs)?;
    add_joined(alloc, &mut state, first, second, third, fourth)?;
    Ok(state)
}

fn bytes_joined(
    alloc: Global,
    s: &SymState,
    cs: &[(u32, Atom)],
    first: Byte<'_>,
    second: Byte<'_>,
    third: Byte<'_>,
    fourth: Byte<'_>,
) -> Result<Remainder, AllocError>
    ensures { IfOk result (λ r. r ≡ bytes_joined s.now cs.now first.entry.0.now first.entry.1.now second.entry.0.now second.entry.1.now third.entry.0.now third.entry.1.now fourth.entry.0.now fourth.entry.1.now) }
{
    let goals = joined_goals(alloc, first.0, second.0, third.0, fourth.0)?;
    let state = cell_joined(alloc, s, cs, first, second.1, third.1, fourth.1)?;
    goals_and_state(alloc, goals, state)
}

fn last_bytes(
    alloc: Global,
    s: &SymState,
    cs: &[(u32, Atom)],
    first: Byte<'_>,
    second: Byte<'_>,
    y: &Atom,
    z: &Atom,
) -> Result<Remainder, Fault>
    ensures { AnswersRoom result (first_failure (last_bytes s.now cs.now (first.entry.0.now, first.entry.1.now) (second.entry.0.now, second.entry.1.now) y.now z.now)) }
{
    match y {
        Atom::Byte(c, w) => match z {
            Atom::Byte(e, x) => match bytes_joined(alloc, s, cs, first, second, (c, w), (e, x)) {
                Ok(left) => Ok(left),
                Err(_) => Err(Fault::Memory),
            },
            _ => Err(Fault::Condition),
        },
        _ => Err(Fault::Condition),
    }
}

fn four_chosen(alloc: Global, s: &SymState, cs: &[(u32, Atom)]) -> Result<Remainder, Fault>
    ensures { AnswersRoom result (first_failure (four_chosen s.now cs.now)) }
{
    match cs {
        [i, j, k, l] => match &i.1 {
            Atom::Byte(a, u) => match &j.1 {
                Atom::Byte(b, v) => last_bytes(alloc, s, cs, (a, u), (b, v), &k.1, &l.1),
                _ => Err(Fault::Condition),
            },
            _ => Err(Fault::Condition),
        },
        _ => Err(Fault::Count),
    }
}

fn four_different(alloc: Global, s: &SymState, cs: List<(u32, Atom)>) -> Result<Remainder, Fault>
    ensures { AnswersRoom result (first_failure (Needs 3 (all_different cs) (four_chosen s.now cs))) }
{
    if all_different(cs.as_slice()) {
        four_chosen(alloc, s, cs.as_slice())
    } else {
        Err(Fault::Condition)
    }
}

// `shape[2, i, j, k, l]`: four bytes in order become a cell of their sum.
fn bytes_to_cell(alloc: Global, s: &SymState, args: &[DArg], n: usize) -> Result<Remainder, Fault>
    ensures { AnswersRoom result (first_failure (bytes_to_cell s.now args.now n)) }
{
    if args.len() != 5 || n != 5 {
        return Err(Fault::Count);
    }
    match chosen(alloc, s.atoms.as_slice(), &args[1..]) {
        Err(_) => Err(Fault::Memory),
        Ok(None) => Err(Fault::Argument),
        Ok(Some(cs)) => four_different(alloc, s, cs),
    }
}

// ---- cells and blocks of one word, and blocks of none

// Puts a cell of a fresh content at the end.
fn add_fresh_cell(alloc: Global, s: &mut SymState, e: &Word, f: u32) -> Result<(), AllocError>
    ensures { OnOk result (s.new ≡ with_atom s.old (Atom.Cell e.now (fresh_word f))) }
{
    let address = e.copy(alloc)?;
    add_atom(s, Atom::Cell(address, fresh_word(f)))
}

// Puts a block of one word at the end.
fn add_one_word(alloc: Global, s: &mut SymState, e: &Word) -> Result<(), AllocError>
    ensures { OnOk result (s.new ≡ with_atom s.old (Atom.Block e.now (Word.Number 1))) }
{
    let address = e.copy(alloc)?;
    add_atom(s, Atom::Block(address, Word::Number(1)))
}

fn cell_from_block(
    alloc: Global,
    s: &SymState,
    i: u32,
    e: &Word,
    k: &Word,
) -> Result<Remainder, AllocError>
    requires { s.now.next + 1 < 4294967296 }
    ensures { IfOk result (λ r. r ≡ cell_from_block s.now i e.now k.now) }
{
    let mut state = with_fresh(alloc, s, i, 1)?;
    add_fresh_cell(alloc, &mut state, e, s.next)?;
    equal_and_state(alloc, k, 1, state)
}

#[tactic(auto, using(crate::proofs::RoomLaws::full_fails))]
fn cell_of_block(alloc: Global, s: &SymState, i: u32, x: &Atom) -> Result<Remainder, Fault>
    ensures { AnswersRoom result (first_failure (cell_of_block s.now i x.now)) }
{
    match x {
        Atom::Block(e, k) => {
            if s.next == u32::MAX {
                return Err(Fault::Condition);
            }
            match cell_from_block(alloc, s, i, e, k) {
                Ok(left) => Ok(left),
                Err(_) => Err(Fault::Memory),
            }
        }
        _ => Err(Fault::Condition),
    }
}

// `shape[3, i]`: a block of one word becomes a cell of a fresh content.
fn block_to_cell(alloc: Global, s: &SymState, args: &[DArg], n: usize) -> Result<Remainder, Fault>
    ensures { AnswersRoom result (first_failure (block_to_cell s.now args.now n)) }
{
    if args.len() != 2 || n != 2 {
        return Err(Fault::Count);
    }
    match number_at(args, 1) {
        None => Err(Fault::Argument),
        Some(i) => match numbered(s.atoms.as_slice(), i) {
            None => Err(Fault::Argument),
            Some(x) => cell_of_block(alloc, s, i, x),
        },
    }
}

fn block_from_cell(alloc: Global, s: &SymState, i: u32, e: &Word) -> Result<Remainder, AllocError>
    ensures { IfOk result (λ r. r ≡ block_from_cell s.now i e.now) }
{
    let mut state = taken(alloc, s, i)?;
    add_one_word(alloc, &mut state, e)?;
    only_state(alloc, state)
}

fn block_of_cell(alloc: Global, s: &SymState, i: u32, x: &Atom) -> Result<Remainder, Fault>
    ensures { AnswersRoom result (first_failure (block_of_cell s.now i x.now)) }
{
    match x {
        Atom::Cell(e, _) => match block_from_cell(alloc, s, i, e) {
            Ok(left) => Ok(left),
            Err(_) => Err(Fault::Memory),
        },
        _ => Err(Fault::Condition),
    }
}

// `shape[4, i]`: a cell becomes a block of one word.
fn cell_to_block(alloc: Global, s: &SymState, args: &[DArg], n: usize) -> Result<Remainder, Fault>
    ensures { AnswersRoom result (first_failure (cell_to_block s.now args.now n)) }
{
    if args.len() != 2 || n != 1 {
        return Err(Fault::Count);
    }
    match number_at(args, 1) {
        None => Err(Fault::Argument),
        Some(i) => match numbered(s.atoms.as_slice(), i) {
            None => Err(Fault::Argument),
            Some(x) => block_of_cell(alloc, s, i, x),
        },
    }
}

fn block_dropped(alloc: Global, s: &SymState, i: u32, k: &Word) -> Result<Remainder, AllocError>
    ensures { IfOk result (λ r. r ≡ block_dropped s.now i k.now) }
{
    let state = taken(alloc, s, i)?;
    equal_and_state(alloc, k, 0, state)
}

fn without_block(alloc: Global, s: &SymState, i: u32, x: &Atom) -> Result<Remainder, Fault>
    ensures { AnswersRoom result (first_failure (without_block s.now i x.now)) }
{
    match x {
        Atom::Block(_, k) => match block_dropped(alloc, s, i, k) {
            Ok(left) => Ok(left),
            Err(_) => Err(Fault::Memory),
        },
        _ => Err(Fault::Condition),
    }
}

// `shape[5, i]`: a block of no words goes.
fn drop_block(alloc: Global, s: &SymState, args: &[DArg], n: usize) -> Result<Remainder, Fault>
    ensures { AnswersRoom result (first_failure (drop_block s.now args.now n)) }
{
    if args.len() != 2 || n != 2 {
        return Err(Fault::Count);
    }
    match number_at(args, 1) {
        None => Err(Fault::Argument),
        Some(i) => match numbered(s.atoms.as_slice(), i) {
            None => Err(Fault::Argument),
            Some(x) => without_block(alloc, s, i, x),
        },
    }
}

// ---- which of them

#[tactic(auto, using(bed_check_pure::proofs::RefusalLaws::no_shape))]
fn shape_of(
    alloc: Global,
    s: &SymState,
    args: &[DArg],
    n: usize,
    k: u32,
) -> Result<Remainder, Fault>
    ensures { AnswersRoom result (first_failure (Given 2 (numbered shapes k) (λ form. shape_of form s.now args.now n))) }
{
    match k {
        1 => cell_to_bytes(alloc, s, args, n),
        2 => bytes_to_cell(alloc, s, args, n),
        3 => block_to_cell(alloc, s, args, n),
        4 => cell_to_block(alloc, s, args, n),
        5 => drop_block(alloc, s, args, n),
        _ => Err(Fault::Argument),
    }
}

/// `shape[k, ..]`: another shape for atoms, the one of number k.
pub(crate) fn shape(
    alloc: Global,
    s: &SymState,
    args: &[DArg],
    n: usize,
) -> Result<Remainder, Fault>
    ensures { AnswersRoom result (first_failure (shape s.now args.now n)) }
{
    if args.is_empty() {
        return Err(Fault::Count);
    }
    match number_at(args, 0) {
        None => Err(Fault::Argument),
        Some(k) => shape_of(alloc, s, args, n, k),
    }
}
