//! The actions of a path: `step` at each of them.
ghost use Rattle.std.specs.Prelude.{◌≡◌, ◌∷◌, [], ◌<◌, ◌-◌, length, IfOk};
ghost use Rattle.std.specs.Option.{option_copied};
ghost use Rattle.bed_deriv.specs.Checks.{first_failure};
ghost use Rattle.bed_deriv.specs.HeapRules.{cell_of, byte_of, fresh_word};
ghost use Rattle.bed_deriv.specs.Steps.{computed, onward, with_local, with_result, assign, compute, load, store, relation, assume, act, with_atom_at};
ghost use Rattle.bed_check_cond.specs.Points.{rest_of, moved, AnswersStep};
ghost use Rattle.bed_check_cond.specs.Parts.{computed_with, loaded, stored_at, stored, assumed};

use crate::bytes::store_byte;
use crate::compute::computed;
use crate::operands::{operand_term, place_term, state_with_local};
use crate::point::{Moved, Point};
use bed_check_pure::Fault;
use bed_deriv::arguments::{atom_at, number_at, numbered};
use bed_deriv::{DArg, SymState};
use bed_lang::{Action, Atom, List, Name, Op, Operand, Place, Pure, Rel, Test, Var, Word};
use std::alloc::{AllocError, Global};

// The fresh variable of a number.
pub(crate) fn fresh_word(number: u32) -> Word
    ensures { result ≡ fresh_word number }
{
    Word::Var(Var::Fresh(number))
}

// Goes on with another term for a local, and this number for the next fresh variable.
fn with_local(
    alloc: Global,
    at: &Point,
    next: u32,
    x: &Name,
    w: &Word,
    goals: List<Pure>,
) -> Result<Moved, Fault>
    ensures { AnswersStep (moved (rest_of at.now)) result (first_failure (with_local (rest_of at.now) (record at.now.state { next = next }) x.now w.now goals)) }
{
    match state_with_local(alloc, &at.state, next, x, w) {
        Err(_) => Err(Fault::Memory),
        Ok(None) => Err(Fault::Condition),
        Ok(Some(state)) => Ok(Moved { goals, state }),
    }
}

// The same, with nothing to prove.
fn only_local(alloc: Global, at: &Point, x: &Name, w: Word) -> Result<Moved, Fault>
    ensures { AnswersStep (moved (rest_of at.now)) result (first_failure (with_local (rest_of at.now) at.now.state x.now w [])) }
{
    with_local(alloc, at, at.state.next, x, &w, List::new(alloc))
}

// The local becomes a fresh variable.
#[tactic(auto, using(crate::proofs::RoomLemmas::no_room_for_local))]
fn fresh_local(alloc: Global, at: &Point, x: &Name) -> Result<Moved, Fault>
    ensures { AnswersStep (moved (rest_of at.now)) result (first_failure (with_result (rest_of at.now) x.now None)) }
{
    if at.state.next == u32::MAX {
        return Err(Fault::Condition);
    }
    let w = fresh_word(at.state.next);
    with_local(alloc, at, at.state.next + 1, x, &w, List::new(alloc))
}

fn assign(
    alloc: Global,
    at: &Point,
    x: &Name,
    a: &Operand,
    args: &[DArg],
    n: usize,
) -> Result<Moved, Fault>
    ensures { AnswersStep (moved (rest_of at.now)) result (first_failure (assign (rest_of at.now) x.now a.now args.now n)) }
{
    if args.len() != 0 || n != 1 {
        return Err(Fault::Count);
    }
    match operand_term(alloc, at.state.locals.as_slice(), a) {
        Err(_) => Err(Fault::Memory),
        Ok(None) => Err(Fault::Condition),
        Ok(Some(w)) => only_local(alloc, at, x, w),
    }
}

// The local becomes the word that an operation gives, or a fresh variable where it gives none.
fn computed_word(
    alloc: Global,
    at: &Point,
    x: &Name,
    op: Op,
    v: &Word,
    w: &Word,
) -> Result<Moved, Fault>
    ensures { AnswersStep (moved (rest_of at.now)) result (first_failure (with_result (rest_of at.now) x.now (computed op v.now w.now))) }
{
    match computed(alloc, op, v, w) {
        Err(_) => Err(Fault::Memory),
        Ok(None) => fresh_local(alloc, at, x),
        Ok(Some(term)) => only_local(alloc, at, x, term),
    }
}

fn computed_with(
    alloc: Global,
    at: &Point,
    x: &Name,
    op: Op,
    v: &Word,
    b: &Operand,
) -> Result<Moved, Fault>
    ensures { AnswersStep (moved (rest_of at.now)) result (first_failure (computed_with (rest_of at.now) x.now op v.now b.now)) }
{
    match operand_term(alloc, at.state.locals.as_slice(), b) {
        Err(_) => Err(Fault::Memory),
        Ok(None) => Err(Fault::Condition),
        Ok(Some(w)) => computed_word(alloc, at, x, op, v, &w),
    }
}

fn compute(
    alloc: Global,
    at: &Point,
    x: &Name,
    op: Op,
    a: &Operand,
    b: &Operand,
    args: &[DArg],
    n: usize,
) -> Result<Moved, Fault>
    ensures { AnswersStep (moved (rest_of at.now)) result (first_failure (compute (rest_of at.now) x.now op a.now b.now args.now n)) }
{
    if args.len() != 0 || n != 1 {
        return Err(Fault::Count);
    }
    match operand_term(alloc, at.state.locals.as_slice(), a) {
        Err(_) => Err(Fault::Memory),
        Ok(None) => Err(Fault::Condition),
        Ok(Some(v)) => computed_with(alloc, at, x, op, &v, b),
    }
}

// That the address of an atom is this place.
pub(crate) fn address_goal(
    alloc: Global,
    address: &Word,
    place: Word,
) -> Result<List<Pure>, AllocError>
    ensures { IfOk result (λ r. r ≡ Pure.Equal address.now place ∷ []) }
{
    let address = address.copy(alloc)?;
    let mut goals = List::new(alloc);
    goals.push(Pure::Equal(address, place))?;
    Ok(goals)
}

// A load from an atom of this address and content, which is at this place.
fn loaded_at(
    alloc: Global,
    at: &Point,
    x: &Name,
    place: Word,
    address: &Word,
    content: &Word,
) -> Result<Moved, Fault>
    ensures { AnswersStep (moved (rest_of at.now)) result (first_failure (with_local (rest_of at.now) at.now.state x.now content.now (Pure.Equal address.now place ∷ []))) }
{
    match address_goal(alloc, address, place) {
        Err(_) => Err(Fault::Memory),
        Ok(goals) => with_local(alloc, at, at.state.next, x, content, goals),
    }
}

// A load from an atom of this address and content.
fn loaded(
    alloc: Global,
    at: &Point,
    x: &Name,
    p: &Place,
    address: &Word,
    content: &Word,
) -> Result<Moved, Fault>
    ensures { AnswersStep (moved (rest_of at.now)) result (first_failure (loaded (rest_of at.now) x.now p.now (address.now, content.now))) }
{
    match place_term(alloc, at.state.locals.as_slice(), p) {
        Err(_) => Err(Fault::Memory),
        Ok(None) => Err(Fault::Condition),
        Ok(Some(place)) => loaded_at(alloc, at, x, place, address, content),
    }
}

fn load(
    alloc: Global,
    at: &Point,
    x: &Name,
    p: &Place,
    args: &[DArg],
    n: usize,
) -> Result<Moved, Fault>
    ensures { AnswersStep (moved (rest_of at.now)) result (first_failure (load cell_of (rest_of at.now) x.now p.now args.now n)) }
{
    if args.len() != 1 || n != 2 {
        return Err(Fault::Count);
    }
    match atom_at(&at.state, args, 0) {
        None => Err(Fault::Argument),
        Some(Atom::Cell(a, v)) => loaded(alloc, at, x, p, a, v),
        Some(_) => Err(Fault::Condition),
    }
}

fn load_byte(
    alloc: Global,
    at: &Point,
    x: &Name,
    p: &Place,
    args: &[DArg],
    n: usize,
) -> Result<Moved, Fault>
    ensures { AnswersStep (moved (rest_of at.now)) result (first_failure (load byte_of (rest_of at.now) x.now p.now args.now n)) }
{
    if args.len() != 1 || n != 2 {
        return Err(Fault::Count);
    }
    match atom_at(&at.state, args, 0) {
        None => Err(Fault::Argument),
        Some(Atom::Byte(a, v)) => loaded(alloc, at, x, p, a, v),
        Some(_) => Err(Fault::Condition),
    }
}

// The state with another atom of this number.
#[tactic(auto, using(crate::proofs::PutLemmas::put_is))]
fn with_atom_at(
    alloc: Global,
    s: &SymState,
    number: u32,
    atom: Atom,
) -> Result<SymState, AllocError>
    requires { number - 1 < length s.now.atoms }
    ensures { IfOk result (λ r. r ≡ with_atom_at s.now number atom) }
{
    let mut state = s.copy(alloc)?;
    state.atoms.set(number.saturating_sub(1) as usize, atom);
    Ok(state)
}

// The state with a cell of this number.
fn with_cell(
    alloc: Global,
    s: &SymState,
    number: u32,
    address: &Word,
    content: Word,
) -> Result<SymState, AllocError>
    requires { number - 1 < length s.now.atoms }
    ensures { IfOk result (λ r. r ≡ with_atom_at s.now number (Atom.Cell address.now content)) }
{
    let address = address.copy(alloc)?;
    with_atom_at(alloc, s, number, Atom::Cell(address, content))
}

// The state with a byte of this number.
pub(crate) fn with_byte(
    alloc: Global,
    s: &SymState,
    number: u32,
    address: &Word,
    content: Word,
) -> Result<SymState, AllocError>
    requires { number - 1 < length s.now.atoms }
    ensures { IfOk result (λ r. r ≡ with_atom_at s.now number (Atom.Byte address.now content)) }
{
    let address = address.copy(alloc)?;
    with_atom_at(alloc, s, number, Atom::Byte(address, content))
}

// A store of this term at this place, to the cell of this number and address.
fn cell_moved(
    alloc: Global,
    at: &Point,
    number: u32,
    address: &Word,
    place: Word,
    content: Word,
) -> Result<Moved, Fault>
    requires { number - 1 < length at.now.state.atoms }
    ensures { AnswersStep (moved (rest_of at.now)) result (first_failure (onward (rest_of at.now) (with_atom_at at.now.state number (Atom.Cell address.now content)) (Pure.Equal address.now place ∷ []))) }
{
    match with_cell(alloc, &at.state, number, address, content) {
        Err(_) => Err(Fault::Memory),
        Ok(state) => match address_goal(alloc, address, place) {
            Err(_) => Err(Fault::Memory),
            Ok(goals) => Ok(Moved { goals, state }),
        },
    }
}

fn stored_at(
    alloc: Global,
    at: &Point,
    number: u32,
    address: &Word,
    place: Word,
    b: &Operand,
) -> Result<Moved, Fault>
    requires { number - 1 < length at.now.state.atoms }
    ensures { AnswersStep (moved (rest_of at.now)) result (first_failure (stored_at (rest_of at.now) number address.now place b.now)) }
{
    match operand_term(alloc, at.state.locals.as_slice(), b) {
        Err(_) => Err(Fault::Memory),
        Ok(None) => Err(Fault::Condition),
        Ok(Some(w)) => cell_moved(alloc, at, number, address, place, w),
    }
}

// A store to the cell of this number and address.
fn stored(
    alloc: Global,
    at: &Point,
    number: u32,
    address: &Word,
    p: &Place,
    b: &Operand,
) -> Result<Moved, Fault>
    requires { number - 1 < length at.now.state.atoms }
    ensures { AnswersStep (moved (rest_of at.now)) result (first_failure (stored (rest_of at.now) number address.now p.now b.now)) }
{
    match place_term(alloc, at.state.locals.as_slice(), p) {
        Err(_) => Err(Fault::Memory),
        Ok(None) => Err(Fault::Condition),
        Ok(Some(place)) => stored_at(alloc, at, number, address, place, b),
    }
}

#[tactic(auto, using(crate::proofs::PutLemmas::numbered_within))]
fn store(
    alloc: Global,
    at: &Point,
    p: &Place,
    b: &Operand,
    args: &[DArg],
    n: usize,
) -> Result<Moved, Fault>
    ensures { AnswersStep (moved (rest_of at.now)) result (first_failure (store (rest_of at.now) p.now b.now args.now n)) }
{
    if args.len() != 1 || n != 2 {
        return Err(Fault::Count);
    }
    match number_at(args, 0) {
        None => Err(Fault::Argument),
        Some(number) => match numbered(at.state.atoms.as_slice(), number) {
            None => Err(Fault::Argument),
            Some(Atom::Cell(a, _)) => stored(alloc, at, number, a, p, b),
            Some(_) => Err(Fault::Condition),
        },
    }
}

// The fact that a test says.
fn relation(rel: Rel, a: Word, b: Word) -> Pure
    ensures { result ≡ relation rel a b }
{
    match rel {
        Rel::Equal => Pure::Equal(a, b),
        Rel::Unequal => Pure::Unequal(a, b),
        Rel::Less => Pure::Less(a, b),
        Rel::AtMost => Pure::AtMost(a, b),
    }
}

// A state to go on with, and nothing to prove.
fn only_state(alloc: Global, state: SymState) -> Moved
    ensures { result ≡ record { goals = []; state = state } }
{
    Moved {
        goals: List::new(alloc),
        state,
    }
}

fn assumed(alloc: Global, at: &Point, rel: Rel, a: Word, right: &Operand) -> Result<Moved, Fault>
    ensures { AnswersStep (moved (rest_of at.now)) result (first_failure (assumed (rest_of at.now) rel a right.now)) }
{
    match operand_term(alloc, at.state.locals.as_slice(), right) {
        Err(_) => Err(Fault::Memory),
        Ok(None) => Err(Fault::Condition),
        Ok(Some(b)) => match at.state.with_fact(alloc, relation(rel, a, b)) {
            Err(_) => Err(Fault::Memory),
            Ok(state) => Ok(only_state(alloc, state)),
        },
    }
}

fn assume(alloc: Global, at: &Point, test: &Test, args: &[DArg], n: usize) -> Result<Moved, Fault>
    ensures { AnswersStep (moved (rest_of at.now)) result (first_failure (assume (rest_of at.now) test.now args.now n)) }
{
    if args.len() != 0 || n != 1 {
        return Err(Fault::Count);
    }
    match operand_term(alloc, at.state.locals.as_slice(), &test.left) {
        Err(_) => Err(Fault::Memory),
        Ok(None) => Err(Fault::Condition),
        Ok(Some(a)) => assumed(alloc, at, test.rel, a, &test.right),
    }
}

/// One action of a path.
///
/// # Errors
/// The first premise that fails; `Memory` for want of memory.
pub(crate) fn act(
    alloc: Global,
    at: &Point,
    action: &Action,
    args: &[DArg],
    n: usize,
) -> Result<Moved, Fault>
    ensures { AnswersStep (moved (rest_of at.now)) result (first_failure (act (rest_of at.now) action.now args.now n)) }
{
    match action {
        Action::Assign(x, a) => assign(alloc, at, x, a, args, n),
        Action::Compute(x, op, a, b) => compute(alloc, at, x, *op, a, b, args, n),
        Action::Load(x, p) => load(alloc, at, x, p, args, n),
        Action::LoadByte(x, p) => load_byte(alloc, at, x, p, args, n),
        Action::Store(p, a) => store(alloc, at, p, a, args, n),
        Action::StoreByte(p, a) => store_byte(alloc, at, p, a, args, n),
        Action::Assume(test) => assume(alloc, at, test, args, n),
    }
}
