//! The end of a path: `finish`.
ghost use Rattle.std.specs.Prelude.{◌≡◌, ◌++◌, ◌≤◌, length, map, IfOk};
ghost use Rattle.bed_lang.specs.Instances.{terms_with};
ghost use Rattle.bed_deriv.specs.Checks.{first_failure};
ghost use Rattle.bed_lang.specs.SameFacts.{is_none};
ghost use Rattle.bed_deriv.specs.Matches.{atoms_left};
ghost use Rattle.bed_check_pure.specs.Faults.{AnswersRule};
ghost use Rattle.bed_deriv.specs.Opening.{replacing, with_answer, local_values};
ghost use Rattle.bed_deriv.specs.Steps.{names_with, old_word, finish, met};
ghost use Rattle.bed_check_cond.specs.Points.{aim_goal, rest_of, ended, AnswersStep};
ghost use Rattle.bed_check_cond.specs.Parts.{end_values, end_with, end_found, end_meets, met_terms, returned_terms, returned_end};

use crate::calls::{has_goals, is_sum};
use crate::operands::operand_term;
use crate::point::{Aim, Point};
use crate::values::{push_locals, push_old};
use bed_check_heap::to_values;
use bed_check_pure::Fault;
use bed_deriv::choice::{all_different, atoms_left, chosen};
use bed_deriv::matching::{count_of_atoms, match_goals};
use bed_deriv::read::read_terms;
use bed_deriv::{DArg, Reading, SymState};
use bed_lang::{
    Arg, Assertion, Atom, Decls, Goal, List, Name, Operand, Pure, Signature, Term, Tree, Word,
};
use std::alloc::{AllocError, Global};

// Whether no atom is left.
fn none_left(alloc: Global, s: &SymState, cs: &[(u32, Atom)]) -> Result<bool, AllocError>
    ensures { IfOk result (λ r. r ≡ is_none (atoms_left cs.now 1 s.now.atoms)) }
{
    let left = atoms_left(alloc, cs, s.atoms.as_slice())?;
    match left.as_slice() {
        [] => Ok(true),
        _ => Ok(false),
    }
}

// The match at a path's end, its terms being read.
fn end_meets(
    alloc: Global,
    s: &SymState,
    terms: &[Term],
    cs: &[(u32, Atom)],
) -> Result<List<Pure>, Fault>
    ensures { AnswersStep ended result (first_failure (end_meets s.now terms.now cs.now)) }
{
    if !all_different(cs) {
        return Err(Fault::Condition);
    }
    match match_goals(alloc, terms, cs) {
        Err(_) => Err(Fault::Memory),
        Ok(None) => Err(Fault::Condition),
        Ok(Some(goals)) => match none_left(alloc, s, cs) {
            Err(_) => Err(Fault::Memory),
            Ok(false) => Err(Fault::Condition),
            Ok(true) => Ok(goals),
        },
    }
}

// The locals' terms, and the values of an assertion's binders.
fn met_values(
    alloc: Global,
    s: &SymState,
    bs: &List<(Name, Arg)>,
) -> Result<List<(Name, Arg)>, AllocError>
    ensures { IfOk result (λ r. r ≡ local_values s.now.locals ++ bs.now) }
{
    let mut values = List::new(alloc);
    push_locals(alloc, &mut values, s.locals.as_slice())?;
    let more = bs.copied(alloc)?;
    values.append(more)?;
    Ok(values)
}

// The terms of an assertion, read with the locals' terms.
fn met_terms(
    alloc: Global,
    s: &SymState,
    bs: &List<(Name, Arg)>,
    terms: &[Term],
) -> Result<List<Term>, AllocError>
    ensures { IfOk result (λ r. r ≡ met_terms s.now bs.now terms.now) }
{
    let values = met_values(alloc, s, bs)?;
    let reading = Reading::Names(values.as_slice());
    read_terms(alloc, &reading, terms)
}

// The locals' terms, the arguments' values at entry, and the values of an assertion's binders.
fn returned_values(
    alloc: Global,
    s: &SymState,
    params: &[Name],
    bs: &List<(Name, Arg)>,
) -> Result<List<(Name, Arg)>, AllocError>
    ensures { IfOk result (λ r. r ≡ local_values s.now.locals ++ names_with params.now (map old_word params.now) ++ bs.now) }
{
    let mut values = List::new(alloc);
    push_locals(alloc, &mut values, s.locals.as_slice())?;
    push_old(alloc, &mut values, params)?;
    let more = bs.copied(alloc)?;
    values.append(more)?;
    Ok(values)
}

// The terms of a postcondition, read with the locals' terms, the arguments' values at entry and the answer.
fn returned_terms(
    alloc: Global,
    s: &SymState,
    params: &[Name],
    w: &Word,
    bs: &List<(Name, Arg)>,
    terms: &[Term],
) -> Result<List<Term>, AllocError>
    ensures { IfOk result (λ r. r ≡ returned_terms s.now params.now w.now bs.now terms.now) }
{
    let values = returned_values(alloc, s, params, bs)?;
    let reading = Reading::Answer(w, values.as_slice());
    read_terms(alloc, &reading, terms)
}

// The end of a path at an assertion, its binders' values and its atoms being found.
fn met_found(
    alloc: Global,
    at: &Point,
    assertion: &Assertion,
    bs: &List<(Name, Arg)>,
    cs: &[(u32, Atom)],
) -> Result<List<Pure>, Fault>
    ensures { AnswersStep ended result (first_failure (end_found (rest_of at.now) (met at.now.state assertion.now) bs.now cs.now)) }
{
    if at.ahead.actions.len() != 0 {
        return Err(Fault::Condition);
    }
    match met_terms(alloc, &at.state, bs, assertion.terms.as_slice()) {
        Err(_) => Err(Fault::Memory),
        Ok(terms) => end_meets(alloc, &at.state, terms.as_slice(), cs),
    }
}

// The end of a path at a return of this word, its binders' values and its atoms being found.
fn returned_with(
    alloc: Global,
    state: &SymState,
    s: &Signature,
    w: &Word,
    bs: &List<(Name, Arg)>,
    cs: &[(u32, Atom)],
) -> Result<List<Pure>, Fault>
    ensures { AnswersStep ended result (first_failure (end_meets state.now (returned_terms state.now s.now.params w.now bs.now s.now.post.terms) cs.now)) }
{
    let params = s.params.as_slice();
    match returned_terms(alloc, state, params, w, bs, s.post.terms.as_slice()) {
        Err(_) => Err(Fault::Memory),
        Ok(terms) => end_meets(alloc, state, terms.as_slice(), cs),
    }
}

// The end of a path at a return, its binders' values and its atoms being found.
#[tactic(auto, using(crate::proofs::EndLemmas::returned_none, crate::proofs::EndLemmas::returned_some))]
fn returned_found(
    alloc: Global,
    at: &Point,
    s: &Signature,
    a: &Operand,
    bs: &List<(Name, Arg)>,
    cs: &[(u32, Atom)],
) -> Result<List<Pure>, Fault>
    ensures { AnswersStep ended result (first_failure (end_found (rest_of at.now) (returned_end at.now.state s.now a.now) bs.now cs.now)) }
{
    if at.ahead.actions.len() != 0 {
        return Err(Fault::Condition);
    }
    match operand_term(alloc, at.state.locals.as_slice(), a) {
        Err(_) => Err(Fault::Memory),
        Ok(None) => Err(Fault::Condition),
        Ok(Some(w)) => returned_with(alloc, &at.state, s, &w, bs, cs),
    }
}

// The values of an assertion's binders, and the atoms that its match takes; the first premise that fails
// where there are none.
fn end_values(
    alloc: Global,
    state: &SymState,
    assertion: &Assertion,
    args: &[DArg],
    n: usize,
) -> Result<(List<(Name, Arg)>, List<(u32, Atom)>), Fault>
    ensures { AnswersRule result (first_failure (end_values state.now assertion.now args.now n)) }
{
    let binders = assertion.binders.len();
    let terms = assertion.terms.as_slice();
    if !is_sum(args.len(), binders, 0, count_of_atoms(terms)) || !has_goals(terms, n) {
        return Err(Fault::Count);
    }
    let (values, atoms) = args.split_at(binders);
    let bs = match to_values(alloc, state, assertion.binders.as_slice(), values) {
        Err(_) => return Err(Fault::Memory),
        Ok(None) => return Err(Fault::Argument),
        Ok(Some(bs)) => bs,
    };
    match chosen(alloc, state.atoms.as_slice(), atoms) {
        Err(_) => Err(Fault::Memory),
        Ok(None) => Err(Fault::Argument),
        Ok(Some(cs)) => Ok((bs, cs)),
    }
}

// The end of a path at an assertion.
#[tactic(auto, using(crate::proofs::EndLemmas::end_unvalued))]
fn meets(
    alloc: Global,
    at: &Point,
    assertion: &Assertion,
    args: &[DArg],
    n: usize,
) -> Result<List<Pure>, Fault>
    ensures { AnswersStep ended result (first_failure (end_with (rest_of at.now) args.now n (met at.now.state assertion.now))) }
{
    let (bs, cs) = end_values(alloc, &at.state, assertion, args, n)?;
    met_found(alloc, at, assertion, &bs, cs.as_slice())
}

// The end of a path at a return.
#[tactic(auto, using(crate::proofs::EndLemmas::end_unvalued))]
fn returns(
    alloc: Global,
    at: &Point,
    s: &Signature,
    a: &Operand,
    args: &[DArg],
    n: usize,
) -> Result<List<Pure>, Fault>
    ensures { AnswersStep ended result (first_failure (end_with (rest_of at.now) args.now n (returned_end at.now.state s.now a.now))) }
{
    let (bs, cs) = end_values(alloc, &at.state, &s.post, args, n)?;
    returned_found(alloc, at, s, a, &bs, cs.as_slice())
}

/// The end of a path: what its match leaves to prove.
///
/// # Errors
/// The first premise that fails; `Memory` for want of memory.
pub(crate) fn finish(
    alloc: Global,
    decls: &Decls,
    function: &Name,
    at: &Point,
    args: &[DArg],
    n: usize,
) -> Result<List<Pure>, Fault>
    ensures { AnswersStep ended result (first_failure (finish decls.now function.now (rest_of at.now) args.now n)) }
{
    match at.ahead.aim {
        Aim::Behind(assertion) => meets(alloc, at, assertion, args, n),
        Aim::Whole(Goal::Meets(assertion)) => meets(alloc, at, assertion, args, n),
        Aim::Whole(Goal::Returns(a)) => match decls.function_signature(function) {
            None => Err(Fault::Condition),
            Some(s) => returns(alloc, at, s, a, args, n),
        },
        Aim::Whole(_) => Err(Fault::Condition),
    }
}
