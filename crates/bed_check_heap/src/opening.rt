//! Assertions opened at the end of a state, their words and sequences written anew from their forms.
ghost use Rattle.std.specs.Prelude.{◌≡◌, ◌<◌, ◌+◌, ◌++◌, ◌∷◌, [], IfOk, OnOk, length, map};
ghost use Rattle.bed_deriv.specs.Opening.{fresh_values, alone, replaced_fact, replaced_atom, replaced_term, with_terms, opened_anew};
ghost use Rattle.bed_deriv.specs.Readings.{instance_of};
ghost use Rattle.bed_deriv.specs.HeapRules.{params_with};

use bed_deriv::read::{read_atom_anew, read_fact_anew};
use bed_deriv::{Reading, SymState, push_fresh};
use bed_lang::{Arg, Assertion, Atom, Bind, List, Name, Pure, Term, Tree};
use std::alloc::{AllocError, Global};

// A name with its value, at the end of the others.
fn push_argument(
    alloc: Global,
    out: &mut List<(Name, Arg)>,
    bind: &Bind,
    arg: &Arg,
) -> Result<(), AllocError>
    ensures { OnOk result (out.new ≡ out.old ++ (bind.now.name, arg.now) ∷ []) }
{
    let name = bind.name.copy(alloc)?;
    let value = arg.copy(alloc)?;
    out.push((name, value))
}

/// Parameters with their arguments, in order, as far as there are both.
pub(crate) fn params_with(
    alloc: Global,
    params: &[Bind],
    args: &[Arg],
) -> Result<List<(Name, Arg)>, AllocError>
    ensures { IfOk result (λ r. r ≡ params_with params.now args.now) }
{
    let mut out = List::new(alloc);
    let mut left = params;
    let mut rest = args;
    while let [bind, more @ ..] = left {
        match rest {
            [] => return Ok(out),
            [arg, others @ ..] => {
                push_argument(alloc, &mut out, bind, arg)?;
                rest = others;
            }
        }
        left = more;
    }
    Ok(out)
}

// The values, and then the binders with fresh variables.
fn with_fresh(
    alloc: Global,
    values: &List<(Name, Arg)>,
    binders: &[Bind],
    next: u32,
) -> Result<List<(Name, Arg)>, AllocError>
    requires { next + length binders.now < 4294967296 }
    ensures { IfOk result (λ r. r ≡ values.now ++ fresh_values binders.now next) }
{
    let mut out = values.copied(alloc)?;
    push_fresh(alloc, &mut out, binders, next)?;
    Ok(out)
}

fn push_fact(
    alloc: Global,
    facts: &mut List<Pure>,
    reading: &Reading,
    p: &Pure,
) -> Result<(), AllocError>
    ensures { OnOk result (facts.new ≡ facts.old ++ replaced_fact (instance_of reading.now) p.now ∷ []) }
{
    let p = read_fact_anew(alloc, reading, p)?;
    facts.push(p)
}

fn push_atom(
    alloc: Global,
    atoms: &mut List<Atom>,
    reading: &Reading,
    a: &Atom,
) -> Result<(), AllocError>
    ensures { OnOk result (atoms.new ≡ atoms.old ++ replaced_atom (instance_of reading.now) a.now ∷ []) }
{
    let a = read_atom_anew(alloc, reading, a)?;
    atoms.push(a)
}

// Terms at the ends of the state's lists.
fn push_terms(
    alloc: Global,
    state: &mut SymState,
    reading: &Reading,
    terms: &[Term],
) -> Result<(), AllocError>
    ensures { OnOk result (state.new ≡ with_terms state.old (map (replaced_term (instance_of reading.now)) terms.now)) }
{
    for term in terms {
        match term {
            Term::Emp => {}
            Term::Pure(p) => push_fact(alloc, &mut state.facts, reading, p)?,
            Term::Atom(a) => push_atom(alloc, &mut state.atoms, reading, a)?,
        }
    }
    Ok(())
}

// The state with an assertion's terms, where each name has its value and every other one is 0 or empty.
fn with_values(
    alloc: Global,
    s: &SymState,
    values: &[(Name, Arg)],
    assertion: &Assertion,
) -> Result<SymState, AllocError>
    requires { s.now.next + length assertion.now.binders < 4294967296 }
    ensures { IfOk result (λ r. r ≡ with_terms (record s.now { next = s.now.next + length assertion.now.binders }) (map (replaced_term (alone values.now)) assertion.now.terms)) }
{
    let mut state = s.copy(alloc)?;
    state.next = s.next + assertion.binders.len() as u32;
    push_terms(
        alloc,
        &mut state,
        &Reading::Alone(values),
        assertion.terms.as_slice(),
    )?;
    Ok(state)
}

/// The state with an assertion opened in it: each name gives way to its value, each binder to a fresh
/// variable, every other variable to 0 or the empty sequence.
pub(crate) fn opened(
    alloc: Global,
    values: &List<(Name, Arg)>,
    assertion: &Assertion,
    s: &SymState,
) -> Result<SymState, AllocError>
    requires { s.now.next + length assertion.now.binders < 4294967296 }
    ensures { IfOk result (λ r. r ≡ opened_anew alone values.now assertion.now s.now) }
{
    let values = with_fresh(alloc, values, assertion.binders.as_slice(), s.next)?;
    with_values(alloc, s, values.as_slice(), assertion)
}
