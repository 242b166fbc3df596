//! The rule fold.
ghost use Rattle.std.specs.Prelude.{◌≡◌, ◌≤◌, ◌+◌, ◌∷◌, ◌++◌, [], IfOk, OnOk, length};
ghost use Rattle.bed_lang.specs.Instances.{terms_with};
ghost use Rattle.bed_deriv.specs.Opening.{alone};
ghost use Rattle.bed_deriv.specs.Matches.{match_goals};
ghost use Rattle.bed_deriv.specs.Checks.{first_failure};
ghost use Rattle.bed_deriv.specs.HeapRules.{value_args, with_atom, fold_rule};
ghost use Rattle.bed_check_pure.specs.Faults.{AnswersRule};
ghost use Rattle.bed_check_heap.specs.Predicates.{folded_state, fold_goals, fold_atoms, fold_binders, fold_params, fold_case, fold_predicate};

use crate::atoms::{add_atom, without_chosen};
use crate::remainder::goals_and_state;
use crate::values::to_values;
use bed_check_pure::Fault;
use bed_check_pure::predicates::{fold_counts, predicate_named};
use bed_deriv::arguments::{number_at, numbered};
use bed_deriv::choice::{all_different, chosen};
use bed_deriv::matching::match_goals;
use bed_deriv::read::read_terms;
use bed_deriv::{DArg, Reading, Remainder, SymState};
use bed_lang::{Arg, Assertion, Atom, Decls, List, Name, Predicate, Pure, Term, Tree};
use std::alloc::{AllocError, Global};

// The values of a list of names with values.
fn value_args(alloc: Global, values: &[(Name, Arg)]) -> Result<List<Arg>, AllocError>
    ensures { IfOk result (λ r. r ≡ value_args values.now) }
{
    let mut out = List::new(alloc);
    for value in values {
        out.push(value.1.copy(alloc)?)?;
    }
    Ok(out)
}

fn folded_atom(alloc: Global, x: &Name, values: &[(Name, Arg)]) -> Result<Atom, AllocError>
    ensures { IfOk result (λ r. r ≡ Atom.Pred x.now (value_args values.now)) }
{
    let args = value_args(alloc, values)?;
    let name = x.copy(alloc)?;
    Ok(Atom::Pred(name, args))
}

// Puts that atom at the end.
fn add_folded(
    alloc: Global,
    s: &mut SymState,
    x: &Name,
    values: &[(Name, Arg)],
) -> Result<(), AllocError>
    ensures { OnOk result (s.new ≡ with_atom s.old (Atom.Pred x.now (value_args values.now))) }
{
    let atom = folded_atom(alloc, x, values)?;
    add_atom(s, atom)
}

// The state with a predicate's atom in place of the chosen ones.
fn folded_state(
    alloc: Global,
    s: &SymState,
    cs: &[(u32, Atom)],
    x: &Name,
    values: &[(Name, Arg)],
) -> Result<SymState, AllocError>
    ensures { IfOk result (λ r. r ≡ folded_state s.now cs.now x.now values.now) }
{
    let mut state = without_chosen(alloc, s, cs)?;
    add_folded(alloc, &mut state, x, values)?;
    Ok(state)
}

fn folded(
    alloc: Global,
    s: &SymState,
    cs: &[(u32, Atom)],
    x: &Name,
    values: &[(Name, Arg)],
    goals: List<Pure>,
) -> Result<Remainder, AllocError>
    ensures { IfOk result (λ r. r ≡ record { goals = goals; states = folded_state s.now cs.now x.now values.now ∷ [] }) }
{
    let state = folded_state(alloc, s, cs, x, values)?;
    goals_and_state(alloc, goals, state)
}

fn fold_goals(
    alloc: Global,
    s: &SymState,
    cs: &[(u32, Atom)],
    x: &Name,
    values: &[(Name, Arg)],
    found: Option<List<Pure>>,
) -> Result<Remainder, Fault>
    ensures { AnswersRule result (first_failure (fold_goals s.now cs.now x.now values.now found)) }
{
    match found {
        None => Err(Fault::Condition),
        Some(goals) => match folded(alloc, s, cs, x, values, goals) {
            Ok(left) => Ok(left),
            Err(_) => Err(Fault::Memory),
        },
    }
}

// The values of the parameters, and then those of the binders.
fn all_values(
    alloc: Global,
    values: &List<(Name, Arg)>,
    binders: &List<(Name, Arg)>,
) -> Result<List<(Name, Arg)>, AllocError>
    ensures { IfOk result (λ r. r ≡ values.now ++ binders.now) }
{
    let mut out = values.copied(alloc)?;
    let more = binders.copied(alloc)?;
    out.append(more)?;
    Ok(out)
}

fn case_terms(
    alloc: Global,
    values: &List<(Name, Arg)>,
    binders: &List<(Name, Arg)>,
    terms: &[Term],
) -> Result<List<Term>, AllocError>
    ensures { IfOk result (λ r. r ≡ terms_with (alone (values.now ++ binders.now)) terms.now) }
{
    let all = all_values(alloc, values, binders)?;
    read_terms(alloc, &Reading::Alone(all.as_slice()), terms)
}

// What is left to prove where the case's terms are matched with the chosen atoms, if they match.
fn case_goals(
    alloc: Global,
    values: &List<(Name, Arg)>,
    binders: &List<(Name, Arg)>,
    terms: &[Term],
    cs: &[(u32, Atom)],
) -> Result<Option<List<Pure>>, AllocError>
    ensures { IfOk result (λ r. r ≡ match_goals (terms_with (alone (values.now ++ binders.now)) terms.now) cs.now) }
{
    let terms = case_terms(alloc, values, binders, terms)?;
    match_goals(alloc, terms.as_slice(), cs)
}

fn fold_atoms(
    alloc: Global,
    s: &SymState,
    x: &Name,
    case: &Assertion,
    values: &List<(Name, Arg)>,
    binders: &List<(Name, Arg)>,
    cs: &[(u32, Atom)],
) -> Result<Remainder, Fault>
    ensures { AnswersRule result (first_failure (fold_atoms s.now x.now case.now values.now binders.now cs.now)) }
{
    if !all_different(cs) {
        return Err(Fault::Condition);
    }
    match case_goals(alloc, values, binders, case.terms.as_slice(), cs) {
        Err(_) => Err(Fault::Memory),
        Ok(found) => fold_goals(alloc, s, cs, x, values.as_slice(), found),
    }
}

fn fold_binders(
    alloc: Global,
    s: &SymState,
    x: &Name,
    case: &Assertion,
    values: &List<(Name, Arg)>,
    binders: &List<(Name, Arg)>,
    args: &[DArg],
) -> Result<Remainder, Fault>
    ensures { AnswersRule result (first_failure (fold_binders s.now x.now case.now values.now binders.now args.now)) }
{
    match chosen(alloc, s.atoms.as_slice(), args) {
        Err(_) => Err(Fault::Memory),
        Ok(None) => Err(Fault::Argument),
        Ok(Some(cs)) => fold_atoms(alloc, s, x, case, values, binders, cs.as_slice()),
    }
}

fn fold_params(
    alloc: Global,
    s: &SymState,
    args: &[DArg],
    x: &Name,
    predicate: &Predicate,
    case: &Assertion,
    values: &List<(Name, Arg)>,
) -> Result<Remainder, Fault>
    requires { 2 + length predicate.now.params + length case.now.binders ≤ length args.now }
    ensures { AnswersRule result (first_failure (fold_params s.now args.now x.now predicate.now case.now values.now)) }
{
    let behind = 2 + predicate.params.len();
    let many = case.binders.len();
    match to_values(alloc, s, case.binders.as_slice(), &args[behind..][..many]) {
        Err(_) => Err(Fault::Memory),
        Ok(None) => Err(Fault::Argument),
        Ok(Some(binders)) => {
            fold_binders(alloc, s, x, case, values, &binders, &args[behind + many..])
        }
    }
}

#[tactic(auto, using(crate::proofs::CountLaws::counts_fit))]
fn fold_case(
    alloc: Global,
    s: &SymState,
    args: &[DArg],
    n: usize,
    x: &Name,
    predicate: &Predicate,
    case: &Assertion,
) -> Result<Remainder, Fault>
    ensures { AnswersRule result (first_failure (fold_case s.now args.now n x.now predicate.now case.now)) }
{
    if !fold_counts(args, n, predicate, case) {
        return Err(Fault::Count);
    }
    let many = predicate.params.len();
    match to_values(alloc, s, predicate.params.as_slice(), &args[2..][..many]) {
        Err(_) => Err(Fault::Memory),
        Ok(None) => Err(Fault::Argument),
        Ok(Some(values)) => fold_params(alloc, s, args, x, predicate, case, &values),
    }
}

fn fold_predicate(
    alloc: Global,
    s: &SymState,
    args: &[DArg],
    n: usize,
    x: &Name,
    predicate: &Predicate,
) -> Result<Remainder, Fault>
    ensures { AnswersRule result (first_failure (fold_predicate s.now args.now n x.now predicate.now)) }
{
    match number_at(args, 1) {
        None => Err(Fault::Argument),
        Some(c) => match numbered(predicate.cases.as_slice(), c) {
            None => Err(Fault::Argument),
            Some(case) => fold_case(alloc, s, args, n, x, predicate, case),
        },
    }
}

/// `fold[P, c, arguments, values, atoms]`: atoms that match case c of P give way to P's atom.
pub(crate) fn fold(
    alloc: Global,
    decls: &Decls,
    s: &SymState,
    args: &[DArg],
    n: usize,
) -> Result<Remainder, Fault>
    ensures { AnswersRule result (first_failure (fold_rule decls.now s.now args.now n)) }
{
    if args.len() < 2 {
        return Err(Fault::Count);
    }
    match args.get(0) {
        Some(DArg::Name(x)) => match predicate_named(decls, x) {
            None => Err(Fault::Argument),
            Some(predicate) => fold_predicate(alloc, s, args, n, x, predicate),
        },
        _ => Err(Fault::Argument),
    }
}
