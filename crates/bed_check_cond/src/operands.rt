//! Operands and locals.
ghost use Rattle.std.specs.Prelude.{◌≡◌, ◌∷◌, [], IfOk};
ghost use Rattle.std.specs.Option.{option_copied};
ghost use Rattle.bed_deriv.specs.Steps.{local_term, operand_term, place_term, operand_terms, with_term, set_local};
ghost use Rattle.bed_check_cond.specs.Parts.{state_with_local};

use bed_deriv::SymState;
use bed_lang::{Box, List, Name, Operand, Place, Tree, Word};
use std::alloc::{AllocError, Global};

// The term of a local: the first of its name.
fn local_term<'a>(locals: &'a [(Name, Word)], x: &Name) -> Option<&'a Word>
    ensures { option_copied result ≡ local_term locals.now x.now.bytes }
{
    let mut rest = locals;
    while let [local, more @ ..] = rest {
        if local.0.same(x) {
            return Some(&local.1);
        }
        rest = more;
    }
    None
}

/// The term of an operand; None where there is no such local.
pub(crate) fn operand_term(
    alloc: Global,
    locals: &[(Name, Word)],
    a: &Operand,
) -> Result<Option<Word>, AllocError>
    ensures { IfOk result (λ r. r ≡ operand_term locals.now a.now) }
{
    match a {
        Operand::Number(n) => Ok(Some(Word::Number(*n))),
        Operand::Local(x) => match local_term(locals, x) {
            None => Ok(None),
            Some(w) => Ok(Some(w.copy(alloc)?)),
        },
        Operand::Label(f) => Ok(Some(Word::Label(f.copy(alloc)?))),
    }
}

fn plus(alloc: Global, w: Word, n: u32) -> Result<Word, AllocError>
    ensures { IfOk result (λ r. r ≡ Word.Add w (Word.Number n)) }
{
    let a = Box::new(alloc, w)?;
    let b = Box::new(alloc, Word::Number(n))?;
    Ok(Word::Add(a, b))
}

/// The address of a place; None where there is no such local.
pub(crate) fn place_term(
    alloc: Global,
    locals: &[(Name, Word)],
    p: &Place,
) -> Result<Option<Word>, AllocError>
    ensures { IfOk result (λ r. r ≡ place_term locals.now p.now) }
{
    match operand_term(alloc, locals, &p.base)? {
        None => Ok(None),
        Some(w) => Ok(Some(plus(alloc, w, p.disp)?)),
    }
}

/// The terms of operands; None where one has none.
pub(crate) fn operand_terms(
    alloc: Global,
    locals: &[(Name, Word)],
    operands: &[Operand],
) -> Result<Option<List<Word>>, AllocError>
    ensures { IfOk result (λ r. r ≡ operand_terms locals.now operands.now) }
{
    let mut out = List::new(alloc);
    let mut rest = operands;
    while let [operand, more @ ..] = rest {
        match operand_term(alloc, locals, operand)? {
            None => return Ok(None),
            Some(w) => out.push(w)?,
        }
        rest = more;
    }
    Ok(Some(out))
}

// A local, with the term where it has this name.
fn local_with(
    alloc: Global,
    local: &(Name, Word),
    x: &Name,
    w: &Word,
) -> Result<(Name, Word), AllocError>
    ensures { IfOk result (λ r. r ∷ [] ≡ with_term (local.now ∷ []) x.now w.now) }
{
    let name = local.0.copy(alloc)?;
    if local.0.same(x) {
        Ok((name, w.copy(alloc)?))
    } else {
        Ok((name, local.1.copy(alloc)?))
    }
}

// The locals with another term for each one of a name.
fn with_term(
    alloc: Global,
    locals: &[(Name, Word)],
    x: &Name,
    w: &Word,
) -> Result<List<(Name, Word)>, AllocError>
    ensures { IfOk result (λ r. r ≡ with_term locals.now x.now w.now) }
{
    let mut out = List::new(alloc);
    for local in locals {
        out.push(local_with(alloc, local, x, w)?)?;
    }
    Ok(out)
}

/// The locals with another term for one; None where there is none of that name.
pub(crate) fn set_local(
    alloc: Global,
    locals: &[(Name, Word)],
    x: &Name,
    w: &Word,
) -> Result<Option<List<(Name, Word)>>, AllocError>
    ensures { IfOk result (λ r. r ≡ set_local locals.now x.now w.now) }
{
    match local_term(locals, x) {
        None => Ok(None),
        Some(_) => Ok(Some(with_term(alloc, locals, x, w)?)),
    }
}

// The state with these locals and this number for its next fresh variable.
fn with_locals(
    alloc: Global,
    s: &SymState,
    next: u32,
    locals: List<(Name, Word)>,
) -> Result<SymState, AllocError>
    ensures { IfOk result (λ r. r ≡ record s.now { locals = locals; next = next }) }
{
    let facts = s.facts.copied(alloc)?;
    let atoms = s.atoms.copied(alloc)?;
    Ok(SymState {
        locals,
        facts,
        atoms,
        next,
    })
}

/// The state with another term for a local and this number for its next fresh variable; None where there is
/// no such local.
pub(crate) fn state_with_local(
    alloc: Global,
    s: &SymState,
    next: u32,
    x: &Name,
    w: &Word,
) -> Result<Option<SymState>, AllocError>
    ensures { IfOk result (λ r. r ≡ state_with_local s.now next x.now w.now) }
{
    match set_local(alloc, s.locals.as_slice(), x, w)? {
        None => Ok(None),
        Some(locals) => Ok(Some(with_locals(alloc, s, next, locals)?)),
    }
}
