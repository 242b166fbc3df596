//! Values of names: operands, and locals with their terms.
ghost use Rattle.std.specs.Prelude.{◌≡◌, ◌∷◌, ◌++◌, [], map, IfOk, OnOk};
ghost use Rattle.bed_lang.specs.Instances.{terms_with};
ghost use Rattle.bed_deriv.specs.Opening.{local_values, with_terms};
ghost use Rattle.bed_deriv.specs.Readings.{instance_of};
ghost use Rattle.bed_deriv.specs.Steps.{names_with, old_word};

use bed_deriv::read::{read_atom, read_fact};
use bed_deriv::{Reading, SymState};
use bed_lang::{Arg, List, Name, Term, Var, Word};
use std::alloc::{AllocError, Global};

// A name with a word, at the end of the values.
fn push_word(
    alloc: Global,
    out: &mut List<(Name, Arg)>,
    x: &Name,
    w: Word,
) -> Result<(), AllocError>
    ensures { OnOk result (out.new ≡ out.old ++ (x.now, Arg.Word 0 w) ∷ []) }
{
    out.push((x.copy(alloc)?, Arg::Word(0, w)))
}

/// Names with words, in order, as far as there are both.
pub(crate) fn push_names(
    alloc: Global,
    out: &mut List<(Name, Arg)>,
    names: &[Name],
    words: &[Word],
) -> Result<(), AllocError>
    ensures { OnOk result (out.new ≡ out.old ++ names_with names.now words.now) }
{
    let mut rest = words;
    for x in names {
        match rest {
            [] => return Ok(()),
            [w, more @ ..] => {
                let w = w.copy(alloc)?;
                push_word(alloc, out, x, w)?;
                rest = more;
            }
        }
    }
    Ok(())
}

fn old_word(alloc: Global, x: &Name) -> Result<Word, AllocError>
    ensures { IfOk result (λ r. r ≡ old_word x.now) }
{
    let bytes = List::from_slice(alloc, x.bytes.as_slice())?;
    Ok(Word::Var(Var::Old(Name { bytes, at: 0 })))
}

/// Parameters with their values at entry.
pub(crate) fn push_old(
    alloc: Global,
    out: &mut List<(Name, Arg)>,
    params: &[Name],
) -> Result<(), AllocError>
    ensures { OnOk result (out.new ≡ out.old ++ names_with params.now (map old_word params.now)) }
{
    for x in params {
        let w = old_word(alloc, x)?;
        push_word(alloc, out, x, w)?;
    }
    Ok(())
}

/// Locals with their terms.
pub(crate) fn push_locals(
    alloc: Global,
    out: &mut List<(Name, Arg)>,
    locals: &[(Name, Word)],
) -> Result<(), AllocError>
    ensures { OnOk result (out.new ≡ out.old ++ local_values locals.now) }
{
    for local in locals {
        let w = local.1.copy(alloc)?;
        push_word(alloc, out, &local.0, w)?;
    }
    Ok(())
}

/// Terms as they are read, at the ends of the state's lists.
pub(crate) fn push_terms(
    alloc: Global,
    state: &mut SymState,
    reading: &Reading,
    terms: &[Term],
) -> Result<(), AllocError>
    ensures { OnOk result (state.new ≡ with_terms state.old (terms_with (instance_of reading.now) terms.now)) }
{
    for term in terms {
        match term {
            Term::Emp => {}
            Term::Pure(p) => state.facts.push(read_fact(alloc, reading, p)?)?,
            Term::Atom(a) => state.atoms.push(read_atom(alloc, reading, a)?)?,
        }
    }
    Ok(())
}
