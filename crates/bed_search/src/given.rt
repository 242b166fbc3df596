//! Names that hints give.
ghost use Rattle.std.specs.Prelude.{◌≡◌, ◌++◌, ◌∷◌, [], IfOk, OnOk};
ghost use Rattle.bed_forms.specs.Rewritten.{arg_by};
ghost use Rattle.bed_deriv.specs.Opening.{local_value, local_values, replaced_word, replaced_seq};
ghost use Rattle.bed_deriv.specs.Readings.{instance_of};
ghost use Rattle.bed_search.specs.Given.{given_by, given_at, given_value, gives_behind};

use crate::ahead::Todo;
use bed_deriv::{Reading, Rest, SymState, read_seq, read_word};
use bed_forms::{rebuilt_seq, rebuilt_word};
use bed_lang::{Arg, Hint, List, Name, Seq, Tree, Word};
use std::alloc::{AllocError, Global};

fn push_local(
    alloc: Global,
    out: &mut List<(Name, Arg)>,
    local: &(Name, Word),
) -> Result<(), AllocError>
    ensures { OnOk result (out.new ≡ out.old ++ local_value local.now ∷ []) }
{
    let name = local.0.copy(alloc)?;
    let term = local.1.copy(alloc)?;
    out.push((name, Arg::Word(0, term)))
}

/// The locals with their terms, as values of names.
///
/// # Errors
/// `AllocError` for want of memory.
pub fn local_values(alloc: Global, locals: &[(Name, Word)]) -> Result<List<(Name, Arg)>, AllocError>
    ensures { IfOk result (λ r. r ≡ local_values locals.now) }
{
    let mut out = List::new(alloc);
    for local in locals {
        push_local(alloc, &mut out, local)?;
    }
    Ok(out)
}

fn word_anew(alloc: Global, reading: &Reading, w: &Word) -> Result<Word, AllocError>
    ensures { IfOk result (λ r. r ≡ replaced_word (instance_of reading.now) w.now) }
{
    let w = read_word(alloc, reading, w)?;
    rebuilt_word(alloc, &w)
}

fn seq_anew(alloc: Global, reading: &Reading, s: &Seq) -> Result<Seq, AllocError>
    ensures { IfOk result (λ r. r ≡ replaced_seq (instance_of reading.now) s.now) }
{
    let s = read_seq(alloc, reading, s)?;
    rebuilt_seq(alloc, &s)
}

/// An argument with a term in place of each variable, its words and sequences written anew from their forms.
///
/// # Errors
/// `AllocError` for want of memory, and where a form has more than 8,192 parts or pieces.
pub fn read_arg_anew(alloc: Global, reading: &Reading, a: &Arg) -> Result<Arg, AllocError>
    ensures { IfOk result (λ r. r ≡ arg_by (replaced_word (instance_of reading.now)) (replaced_seq (instance_of reading.now)) a.now) }
{
    match a {
        Arg::Word(at, w) => Ok(Arg::Word(*at, word_anew(alloc, reading, w)?)),
        Arg::Seq(at, s) => Ok(Arg::Seq(*at, seq_anew(alloc, reading, s)?)),
        Arg::Bare(name) => Ok(Arg::Bare(name.copy(alloc)?)),
    }
}

/// What a hint gives, read in the state at it, its terms written anew from their forms.
///
/// # Errors
/// `AllocError` for want of memory, and where a form has more than 8,192 parts or pieces.
pub fn given_value(alloc: Global, s: &SymState, a: &Arg) -> Result<Arg, AllocError>
    ensures { IfOk result (λ r. r ≡ given_value s.now a.now) }
{
    let values = local_values(alloc, s.locals.as_slice())?;
    read_arg_anew(alloc, &Reading::Names(values.as_slice()), a)
}

/// A copy of names with their values.
///
/// # Errors
/// `AllocError` for want of memory.
pub(crate) fn copied(alloc: Global, gives: &[(Name, Arg)]) -> Result<List<(Name, Arg)>, AllocError>
    ensures { IfOk result (λ r. r ≡ gives.now) }
{
    let mut out = List::new(alloc);
    for give in gives {
        out.push(give.copied(alloc)?)?;
    }
    Ok(out)
}

/// The name and the value that a thing to do gives in a state; `None` where it is no hint `give`.
///
/// # Errors
/// `AllocError` for want of memory, and where a form has more than 8,192 parts or pieces.
pub(crate) fn given(
    alloc: Global,
    x: &Todo,
    s: &SymState,
) -> Result<Option<(Name, Arg)>, AllocError>
    ensures { IfOk result (λ o. o ≡ given_at s.now (given_by x.now)) }
{
    match x {
        Todo::Takes(Hint::Give(name, a)) => {
            let name = name.copy(alloc)?;
            let value = given_value(alloc, s, a)?;
            Ok(Some((name, value)))
        }
        _ => Ok(None),
    }
}

/// What is given behind a thing to do: a call takes all that was given before it.
pub(crate) fn gives_behind<'a>(x: &Todo, rest: &Rest, gives: &'a [(Name, Arg)]) -> &'a [(Name, Arg)]
    ensures { result.now ≡ gives_behind x.now rest.now gives.now }
{
    match x {
        Todo::Makes if rest.actions.is_empty() => &[],
        _ => gives,
    }
}
