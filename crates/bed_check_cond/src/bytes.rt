//! Stores of a byte.
ghost use Rattle.std.specs.Prelude.{◌≡◌, ◌∷◌, [], ◌<◌, ◌-◌, true, length, IfOk};
ghost use Rattle.std.specs.Option.{option_copied};
ghost use Rattle.bed_deriv.specs.Checks.{first_failure};
ghost use Rattle.bed_deriv.specs.HeapRules.{byte_of, fresh_word, with_next};
ghost use Rattle.bed_deriv.specs.Steps.{flag, stored_byte, store_byte, with_atom_at};
ghost use Rattle.bed_check_cond.specs.Points.{rest_of, moved, AnswersStep};
ghost use Rattle.bed_check_cond.specs.Parts.{fresh_byte, byte_stored_at, byte_stored, byte_numbered};

use crate::actions::{address_goal, fresh_word, with_byte};
use crate::operands::{operand_term, place_term};
use crate::point::{Moved, Point};
use bed_check_pure::Fault;
use bed_deriv::arguments::{number_at, numbered};
use bed_deriv::{DArg, SymState};
use bed_lang::{Atom, List, Operand, Place, Pure, Word};
use std::alloc::{AllocError, Global};

// Whether the stored operand is proved to be a byte; None where the argument says neither.
fn flag(number: Option<u32>) -> Option<bool>
    ensures { result ≡ flag number }
{
    match number {
        Some(0) => Some(false),
        Some(1) => Some(true),
        _ => None,
    }
}

// That the address is this place, and the word at most 255.
fn byte_goals(
    alloc: Global,
    address: &Word,
    place: Word,
    w: &Word,
) -> Result<List<Pure>, AllocError>
    ensures { IfOk result (λ r. r ≡ Pure.Equal address.now place ∷ Pure.AtMost w.now (Word.Number 255) ∷ []) }
{
    let w = w.copy(alloc)?;
    let mut goals = address_goal(alloc, address, place)?;
    goals.push(Pure::AtMost(w, Word::Number(255)))?;
    Ok(goals)
}

// The word becomes the content.
fn kept_byte(
    alloc: Global,
    at: &Point,
    number: u32,
    address: &Word,
    place: Word,
    w: Word,
) -> Result<Moved, Fault>
    requires { number - 1 < length at.now.state.atoms }
    ensures { AnswersStep (moved (rest_of at.now)) result (first_failure (stored_byte (rest_of at.now) number address.now place w true)) }
{
    match byte_goals(alloc, address, place, &w) {
        Err(_) => Err(Fault::Memory),
        Ok(goals) => match with_byte(alloc, &at.state, number, address, w) {
            Err(_) => Err(Fault::Memory),
            Ok(state) => Ok(Moved { goals, state }),
        },
    }
}

// The state with a fresh content.
fn with_fresh_byte(
    alloc: Global,
    s: &SymState,
    number: u32,
    address: &Word,
) -> Result<SymState, AllocError>
    requires number { number - 1 < length s.now.atoms }
    requires room { s.now.next < 4294967295 }
    ensures { IfOk result (λ r. r ≡ with_next (with_atom_at s.now number (Atom.Byte address.now (fresh_word s.now.next))) 1) }
{
    let mut state = with_byte(alloc, s, number, address, fresh_word(s.next))?;
    state.next += 1;
    Ok(state)
}

// The content becomes a fresh variable.
#[tactic(auto, using(crate::proofs::RoomLemmas::no_room_for_byte))]
fn fresh_byte(
    alloc: Global,
    at: &Point,
    number: u32,
    address: &Word,
    place: Word,
) -> Result<Moved, Fault>
    requires { number - 1 < length at.now.state.atoms }
    ensures { AnswersStep (moved (rest_of at.now)) result (first_failure (fresh_byte (rest_of at.now) number address.now place)) }
{
    if at.state.next == u32::MAX {
        return Err(Fault::Condition);
    }
    match address_goal(alloc, address, place) {
        Err(_) => Err(Fault::Memory),
        Ok(goals) => match with_fresh_byte(alloc, &at.state, number, address) {
            Err(_) => Err(Fault::Memory),
            Ok(state) => Ok(Moved { goals, state }),
        },
    }
}

fn byte_stored_at(
    alloc: Global,
    at: &Point,
    number: u32,
    address: &Word,
    place: Word,
    b: &Operand,
    k: bool,
) -> Result<Moved, Fault>
    requires { number - 1 < length at.now.state.atoms }
    ensures { AnswersStep (moved (rest_of at.now)) result (first_failure (byte_stored_at (rest_of at.now) number address.now place b.now k)) }
{
    match operand_term(alloc, at.state.locals.as_slice(), b) {
        Err(_) => Err(Fault::Memory),
        Ok(None) => Err(Fault::Condition),
        Ok(Some(w)) => {
            if k {
                kept_byte(alloc, at, number, address, place, w)
            } else {
                fresh_byte(alloc, at, number, address, place)
            }
        }
    }
}

// A store to the byte of this number and address.
fn byte_stored(
    alloc: Global,
    at: &Point,
    number: u32,
    address: &Word,
    p: &Place,
    b: &Operand,
    k: bool,
) -> Result<Moved, Fault>
    requires { number - 1 < length at.now.state.atoms }
    ensures { AnswersStep (moved (rest_of at.now)) result (first_failure (byte_stored (rest_of at.now) number address.now p.now b.now k)) }
{
    match place_term(alloc, at.state.locals.as_slice(), p) {
        Err(_) => Err(Fault::Memory),
        Ok(None) => Err(Fault::Condition),
        Ok(Some(place)) => byte_stored_at(alloc, at, number, address, place, b, k),
    }
}

// The store to the byte whose number the first argument is.
#[tactic(auto, using(crate::proofs::PutLemmas::numbered_within))]
fn byte_numbered(
    alloc: Global,
    at: &Point,
    p: &Place,
    b: &Operand,
    args: &[DArg],
    k: bool,
) -> Result<Moved, Fault>
    ensures { AnswersStep (moved (rest_of at.now)) result (first_failure (byte_numbered (rest_of at.now) p.now b.now args.now k)) }
{
    match number_at(args, 0) {
        None => Err(Fault::Argument),
        Some(number) => match numbered(at.state.atoms.as_slice(), number) {
            None => Err(Fault::Argument),
            Some(Atom::Byte(a, _)) => byte_stored(alloc, at, number, a, p, b, k),
            Some(_) => Err(Fault::Condition),
        },
    }
}

/// `byte [p] <- b`.
pub(crate) fn store_byte(
    alloc: Global,
    at: &Point,
    p: &Place,
    b: &Operand,
    args: &[DArg],
    n: usize,
) -> Result<Moved, Fault>
    ensures { AnswersStep (moved (rest_of at.now)) result (first_failure (store_byte (rest_of at.now) p.now b.now args.now n)) }
{
    if args.len() != 2 {
        return Err(Fault::Count);
    }
    match flag(number_at(args, 1)) {
        None => Err(Fault::Argument),
        Some(k) => {
            let children = if k { 3 } else { 2 };
            if n != children {
                return Err(Fault::Count);
            }
            byte_numbered(alloc, at, p, b, args, k)
        }
    }
}
