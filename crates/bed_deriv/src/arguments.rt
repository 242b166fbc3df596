//! The arguments of a node, each read as what its rule asks for. Places are counted from 0, numbers of
//! facts and atoms from 1.
ghost use Rattle.std.specs.Prelude.{◌≡◌, IfOk};
ghost use Rattle.std.specs.Option.{option_copied};
ghost use Rattle.bed_deriv.specs.Arguments.{numbered, lone_seq, if_known, number_at, word_at, fact_given, fact_at, atom_at};

use crate::derivation::DArg;
use crate::known::{known_fact, known_var, known_word};
use crate::state::SymState;
use bed_lang::{Arg, Atom, Pure, Seq, Var, Word};
use std::alloc::{AllocError, Global};

/// The item with this number, from 1; None where there is none.
pub fn numbered<T>(items: &[T], number: u32) -> Option<&T>
    ensures { option_copied result ≡ numbered items.now number }
{
    if number == 0 {
        None
    } else {
        items.get((number - 1) as usize)
    }
}

/// The argument at a place as a number; None where it is none.
pub fn number_at(args: &[DArg], at: usize) -> Option<u32>
    ensures { result ≡ number_at args.now at }
{
    match args.get(at) {
        Some(DArg::Number(n)) => Some(*n),
        _ => None,
    }
}

// The variable that a sequence just is, where it is known.
fn lone_seq(next: u32, s: &Seq) -> Option<&Var>
    ensures { option_copied result ≡ if_known next (lone_seq s.now) }
{
    match s {
        Seq::Var(v) => { if known_var(next, v) { Some(v) } else { None } }
        _ => None,
    }
}

/// The argument at a place as a word: a number, a name or a variable alone stands for the word that fits;
/// None where it is none, or holds a fresh variable that the state doesn't have.
///
/// # Errors
/// `AllocError` for want of memory.
pub fn word_at(
    alloc: Global,
    s: &SymState,
    args: &[DArg],
    at: usize,
) -> Result<Option<Word>, AllocError>
    ensures { IfOk result (λ r. r ≡ word_at s.now args.now at) }
{
    match args.get(at) {
        Some(DArg::Number(n)) => Ok(Some(Word::Number(*n))),
        Some(DArg::Name(x)) => Ok(Some(Word::Var(Var::Named(x.copy(alloc)?)))),
        Some(DArg::Arg(Arg::Word(_, w))) => {
            if known_word(s.next, w) {
                Ok(Some(w.copy(alloc)?))
            } else {
                Ok(None)
            }
        }
        Some(DArg::Arg(Arg::Seq(_, t))) => match lone_seq(s.next, t) {
            None => Ok(None),
            Some(v) => Ok(Some(Word::Var(v.copy(alloc)?))),
        },
        _ => Ok(None),
    }
}

/// The argument at a place as a fact; None where it is none, or holds a fresh variable that the state
/// doesn't have.
pub fn fact_given<'a>(s: &SymState, args: &'a [DArg], at: usize) -> Option<&'a Pure>
    ensures { option_copied result ≡ fact_given s.now args.now at }
{
    match args.get(at) {
        Some(DArg::Pure(p)) => { if known_fact(s.next, p) { Some(p) } else { None } }
        _ => None,
    }
}

/// The fact of the state whose number the argument at a place is; None where there is none.
pub fn fact_at<'a>(s: &'a SymState, args: &[DArg], at: usize) -> Option<&'a Pure>
    ensures { option_copied result ≡ fact_at s.now args.now at }
{
    match number_at(args, at) {
        None => None,
        Some(n) => numbered(s.facts.as_slice(), n),
    }
}

/// The atom of the state whose number the argument at a place is; None where there is none.
pub fn atom_at<'a>(s: &'a SymState, args: &[DArg], at: usize) -> Option<&'a Atom>
    ensures { option_copied result ≡ atom_at s.now args.now at }
{
    match number_at(args, at) {
        None => None,
        Some(n) => numbered(s.atoms.as_slice(), n),
    }
}
