//! An argument read as a variable of either sort.
ghost use Rattle.std.specs.Option.{option_copied};
ghost use Rattle.std.specs.Prelude.{◌≡◌, ◌∷◌, [], IfOk, slice_get};
ghost use Rattle.bed_deriv.specs.Arguments.{lone_word, lone_seq, if_known, variable_at};

use bed_deriv::known::known_var;
use bed_deriv::{DArg, SymState};
use bed_lang::{Arg, List, Name, Seq, Var, Word};
use std::alloc::{AllocError, Global};

// The variable that a word just is, where it is known.
fn lone_word(next: u32, w: &Word) -> Option<&Var>
    ensures { option_copied result ≡ if_known next (lone_word w.now) }
{
    match w {
        Word::Var(v) => { if known_var(next, v) { Some(v) } else { None } }
        _ => None,
    }
}

// The variable that a sequence just is, where it is known.
fn lone_seq(next: u32, s: &Seq) -> Option<&Var>
    ensures { option_copied result ≡ if_known next (lone_seq s.now) }
{
    match s {
        Seq::Var(v) => { if known_var(next, v) { Some(v) } else { None } }
        _ => None,
    }
}

fn alone(alloc: Global, v: Var) -> Result<List<Var>, AllocError>
    ensures { IfOk result (λ r. r ≡ v ∷ []) }
{
    let mut out = List::new(alloc);
    out.push(v)?;
    Ok(out)
}

fn copied(alloc: Global, v: &Var) -> Result<List<Var>, AllocError>
    ensures { IfOk result (λ r. r ≡ v.now ∷ []) }
{
    let v = v.copy(alloc)?;
    alone(alloc, v)
}

fn of_name(alloc: Global, x: &Name) -> Result<List<Var>, AllocError>
    ensures { IfOk result (λ r. r ≡ Var.Named x.now ∷ []) }
{
    let x = x.copy(alloc)?;
    alone(alloc, Var::Named(x))
}

fn if_found(alloc: Global, found: Option<&Var>) -> Result<List<Var>, AllocError>
    ensures { IfOk result (λ r. slice_get r 0 ≡ option_copied found.entry) }
{
    match found {
        None => Ok(List::new(alloc)),
        Some(v) => copied(alloc, v),
    }
}

/// The argument at a place as a variable, the one item of a list: a name, or a variable alone. The list has
/// none where it is none, or a fresh one that the state doesn't have.
pub(crate) fn variable_at(
    alloc: Global,
    s: &SymState,
    args: &[DArg],
    at: usize,
) -> Result<List<Var>, AllocError>
    ensures { IfOk result (λ r. slice_get r 0 ≡ variable_at s.now args.now at) }
{
    match args.get(at) {
        Some(DArg::Name(x)) => of_name(alloc, x),
        Some(DArg::Arg(Arg::Word(_, w))) => if_found(alloc, lone_word(s.next, w)),
        Some(DArg::Arg(Arg::Seq(_, t))) => if_found(alloc, lone_seq(s.next, t)),
        _ => Ok(List::new(alloc)),
    }
}
