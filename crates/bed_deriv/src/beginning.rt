//! The state that a condition opens.
ghost use Rattle.std.specs.Prelude.{◌≡◌, ◌<◌, ◌-◌, ◌+◌, ◌++◌, ◌∷◌, [], IfOk, OnOk, IsTrue, length};
ghost use Rattle.bed_lang.specs.Instances.{terms_with};
ghost use Rattle.bed_lang.specs.Lookups.{function_signature, count_of_params};
ghost use Rattle.bed_deriv.specs.Fresh.{IsKnownState, AreUnfresh, unfresh_condition, condition_size};
ghost use Rattle.bed_deriv.specs.Opening.{arguments_of, first_locals, fresh_values, fresh_value, local_values, local_value, replacing, with_terms, opened_alone, started};

use crate::read::{read_atom, read_fact};
use crate::reading::Reading;
use crate::state::SymState;
use bed_lang::{Arg, Assertion, Bind, Cond, Decls, List, Name, Seq, Sort, Term, Var, Word};
use std::alloc::{AllocError, Global};

// How many locals of a condition have their values at entry.
fn arguments_of(c: &Cond, decls: &Decls) -> usize
    ensures { result ≡ arguments_of c.now decls.now }
{
    if !c.entry {
        return 0;
    }
    match decls.function_signature(&c.function) {
        None => 0,
        Some(signature) => signature.params.len(),
    }
}

fn old(alloc: Global, x: &Name) -> Result<Word, AllocError>
    ensures { IfOk result (λ r. r ≡ Word.Var (Var.Old (record { bytes = x.now.bytes; at = 0 }))) }
{
    let bytes = List::from_slice(alloc, x.bytes.as_slice())?;
    Ok(Word::Var(Var::Old(Name { bytes, at: 0 })))
}

// The locals with their terms, of which the first ones have their values at entry.
fn first_locals(
    alloc: Global,
    locals: &[Name],
    arguments: usize,
) -> Result<List<(Name, Word)>, AllocError>
    requires { length locals.now < 4294967295 }
    ensures { IfOk result (λ r. r ≡ first_locals locals.now arguments 0) }
{
    let mut out = List::new(alloc);
    let mut left = arguments;
    let mut next = 0;
    for x in locals {
        let term = if left > 0 {
            left -= 1;
            old(alloc, x)?
        } else {
            next += 1;
            Word::Var(Var::Fresh(next - 1))
        };
        out.push((x.copy(alloc)?, term))?;
    }
    Ok(out)
}

fn push_locals(
    alloc: Global,
    out: &mut List<(Name, Arg)>,
    locals: &[(Name, Word)],
) -> Result<(), AllocError>
    ensures { OnOk result (out.new ≡ out.old ++ local_values locals.now) }
{
    for local in locals {
        let term = Arg::Word(0, local.1.copy(alloc)?);
        out.push((local.0.copy(alloc)?, term))?;
    }
    Ok(())
}

/// The fresh variable of a number, as a term of this sort.
pub fn fresh_value(sort: Sort, number: u32) -> Arg
    ensures { result ≡ fresh_value sort number }
{
    match sort {
        Sort::Word => Arg::Word(0, Word::Var(Var::Fresh(number))),
        Sort::Seq => Arg::Seq(0, Seq::Var(Var::Fresh(number))),
    }
}

/// Each binder with a fresh variable, from this number on, at the end of the others.
///
/// # Errors
/// `AllocError` for want of memory.
pub fn push_fresh(
    alloc: Global,
    out: &mut List<(Name, Arg)>,
    binders: &[Bind],
    next: u32,
) -> Result<(), AllocError>
    requires { next + length binders.now < 4294967296 }
    ensures { OnOk result (out.new ≡ out.old ++ fresh_values binders.now next) }
{
    let mut number = next;
    for binder in binders {
        out.push((binder.name.copy(alloc)?, fresh_value(binder.sort, number)))?;
        number += 1;
    }
    Ok(())
}

// Terms at the ends of the state's lists, with each name that has a value in its place.
fn push_terms(
    alloc: Global,
    state: &mut SymState,
    values: &[(Name, Arg)],
    terms: &[Term],
) -> Result<(), AllocError>
    ensures { OnOk result (state.new ≡ with_terms state.old (terms_with (replacing values.now) terms.now)) }
{
    let reading = Reading::Names(values);
    for term in terms {
        match term {
            Term::Emp => {}
            Term::Pure(p) => state.facts.push(read_fact(alloc, &reading, p)?)?,
            Term::Atom(a) => state.atoms.push(read_atom(alloc, &reading, a)?)?,
        }
    }
    Ok(())
}

/// The state that a condition opens. At the entry each argument has its value at entry and each other
/// local a fresh variable; at an inner point each local has one. Then the start assertion is opened: locals
/// give way to their terms, each binder to a fresh variable, and facts and atoms come in order.
///
/// # Errors
/// `AllocError` for want of memory.
pub fn start(alloc: Global, c: &Cond, decls: &Decls) -> Result<SymState, AllocError>
    requires sizes { condition_size c.now < 4294967295 }
    requires condition { IsTrue (unfresh_condition c.now) }
    requires declarations { AreUnfresh decls.now }
    ensures state { IfOk result (λ s. s ≡ started c.now decls.now) }
    ensures known { IfOk result (λ s. IsKnownState s) }
{
    opened_state(alloc, c, decls)
}

fn opened_state(alloc: Global, c: &Cond, decls: &Decls) -> Result<SymState, AllocError>
    requires { condition_size c.now < 4294967295 }
    ensures { IfOk result (λ s. s ≡ started c.now decls.now) }
{
    let arguments = arguments_of(c, decls);
    let locals = first_locals(alloc, c.locals.as_slice(), arguments)?;
    let next = others(c.locals.len(), arguments);
    open(alloc, &c.start, locals, next)
}

// How many of these locals are no arguments.
fn others(locals: usize, arguments: usize) -> u32
    requires { locals < 4294967296 }
    ensures { result ≡ locals - arguments }
{
    locals.saturating_sub(arguments) as u32
}

// The locals and then the binders, each with its term.
fn values_of(
    alloc: Global,
    locals: &[(Name, Word)],
    binders: &[Bind],
    next: u32,
) -> Result<List<(Name, Arg)>, AllocError>
    requires { next + length binders.now < 4294967296 }
    ensures { IfOk result (λ vs. vs ≡ local_values locals.now ++ fresh_values binders.now next) }
{
    let mut values = List::new(alloc);
    push_locals(alloc, &mut values, locals)?;
    push_fresh(alloc, &mut values, binders, next)?;
    Ok(values)
}

// An assertion opened in a state that has these locals alone.
fn open(
    alloc: Global,
    assertion: &Assertion,
    locals: List<(Name, Word)>,
    next: u32,
) -> Result<SymState, AllocError>
    requires { next + length assertion.now.binders < 4294967296 }
    ensures { IfOk result (λ s. s ≡ opened_alone locals next assertion.now) }
{
    let binders = assertion.binders.as_slice();
    let values = values_of(alloc, locals.as_slice(), binders, next)?;
    let mut state = SymState {
        locals,
        facts: List::new(alloc),
        atoms: List::new(alloc),
        next: next + binders.len() as u32,
    };
    push_terms(
        alloc,
        &mut state,
        values.as_slice(),
        assertion.terms.as_slice(),
    )?;
    Ok(state)
}
