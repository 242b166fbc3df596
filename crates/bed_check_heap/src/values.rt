//! Arguments of a node as values of parameters and binders.
ghost use Rattle.std.specs.Option.{option_copied};
ghost use Rattle.std.specs.Prelude.{◌≡◌, IfOk, slice_get};
ghost use Rattle.bed_check_heap.specs.Predicates.{PushedIf};
ghost use Rattle.bed_deriv.specs.Arguments.{lone_word, if_known, word_value, seq_value, to_seq, to_word, to_value, to_values};

use bed_deriv::arguments::word_at;
use bed_deriv::known::{known_seq, known_var};
use bed_deriv::{DArg, SymState};
use bed_lang::{Arg, Bind, List, Name, Seq, Sort, Var, Word};
use std::alloc::{AllocError, Global};

// The variable that a word just is, where it is known.
fn lone_word(next: u32, w: &Word) -> Option<&Var>
    ensures { option_copied result ≡ if_known next (lone_word w.now) }
{
    match w {
        Word::Var(v) => { if known_var(next, v) { Some(v) } else { None } }
        _ => None,
    }
}

fn seq_of_name(alloc: Global, x: &Name) -> Result<Option<Seq>, AllocError>
    ensures { IfOk result (λ r. r ≡ Some (Seq.Var (Var.Named x.now))) }
{
    let x = x.copy(alloc)?;
    Ok(Some(Seq::Var(Var::Named(x))))
}

fn seq_of_variable(alloc: Global, v: &Var) -> Result<Option<Seq>, AllocError>
    ensures { IfOk result (λ r. r ≡ Some (Seq.Var v.now)) }
{
    let v = v.copy(alloc)?;
    Ok(Some(Seq::Var(v)))
}

fn seq_of(alloc: Global, s: &Seq) -> Result<Option<Seq>, AllocError>
    ensures { IfOk result (λ r. r ≡ Some s.now) }
{
    let s = s.copy(alloc)?;
    Ok(Some(s))
}

// The first argument as a sequence: a name or a variable alone stands for the sequence variable.
fn first_seq(alloc: Global, next: u32, args: &[DArg]) -> Result<Option<Seq>, AllocError>
    ensures { IfOk result (λ r. r ≡ to_seq next (slice_get args.now 0)) }
{
    match args.get(0) {
        Some(DArg::Name(x)) => seq_of_name(alloc, x),
        Some(DArg::Arg(Arg::Seq(_, s))) => {
            if known_seq(next, s) {
                seq_of(alloc, s)
            } else {
                Ok(None)
            }
        }
        Some(DArg::Arg(Arg::Word(_, w))) => match lone_word(next, w) {
            None => Ok(None),
            Some(v) => seq_of_variable(alloc, v),
        },
        _ => Ok(None),
    }
}

fn word_value(alloc: Global, s: &SymState, args: &[DArg]) -> Result<Option<Arg>, AllocError>
    ensures { IfOk result (λ r. r ≡ word_value s.now.next (to_word s.now.next (slice_get args.now 0))) }
{
    match word_at(alloc, s, args, 0) {
        Err(e) => Err(e),
        Ok(None) => Ok(None),
        Ok(Some(w)) => Ok(Some(Arg::Word(0, w))),
    }
}

fn seq_value(alloc: Global, s: &SymState, args: &[DArg]) -> Result<Option<Arg>, AllocError>
    ensures { IfOk result (λ r. r ≡ seq_value s.now.next (to_seq s.now.next (slice_get args.now 0))) }
{
    match first_seq(alloc, s.next, args) {
        Err(e) => Err(e),
        Ok(None) => Ok(None),
        Ok(Some(t)) => Ok(Some(Arg::Seq(0, t))),
    }
}

// The first argument as a value of this sort.
fn first_value(
    alloc: Global,
    s: &SymState,
    sort: Sort,
    args: &[DArg],
) -> Result<Option<Arg>, AllocError>
    ensures { IfOk result (λ r. r ≡ to_value s.now.next sort (slice_get args.now 0)) }
{
    match sort {
        Sort::Word => word_value(alloc, s, args),
        Sort::Seq => seq_value(alloc, s, args),
    }
}

// The first argument as the value of a variable, at the end of the others; false where it is none.
fn push_first(
    alloc: Global,
    s: &SymState,
    out: &mut List<(Name, Arg)>,
    bind: &Bind,
    args: &[DArg],
) -> Result<bool, AllocError>
    ensures { IfOk result (λ pushed. PushedIf pushed out.old out.new bind.now.name (to_value s.now.next bind.now.sort (slice_get args.now 0))) }
{
    let name = bind.name.copy(alloc)?;
    match first_value(alloc, s, bind.sort, args) {
        Err(e) => Err(e),
        Ok(None) => Ok(false),
        Ok(Some(value)) => match out.push((name, value)) {
            Err(e) => Err(e),
            Ok(()) => Ok(true),
        },
    }
}

/// Arguments as values of these variables, in order: each variable with its value. None where an argument
/// is missing, is none of its variable's sort, or holds a fresh variable that the state doesn't have.
///
/// # Errors
/// `AllocError` for want of memory.
pub fn to_values(
    alloc: Global,
    s: &SymState,
    binds: &[Bind],
    args: &[DArg],
) -> Result<Option<List<(Name, Arg)>>, AllocError>
    ensures { IfOk result (λ r. r ≡ to_values s.now.next binds.now args.now) }
{
    let mut out = List::new(alloc);
    let mut left = binds;
    let mut rest = args;
    while let [bind, more @ ..] = left {
        match rest {
            [] => return Ok(None),
            [_, others @ ..] => {
                if !push_first(alloc, s, &mut out, bind, rest)? {
                    return Ok(None);
                }
                rest = others;
            }
        }
        left = more;
    }
    Ok(Some(out))
}
