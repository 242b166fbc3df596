//! The rule unfold.
ghost use Rattle.std.specs.Prelude.{◌≡◌, ◌<◌, ◌+◌, ◌++◌, ◌∷◌, [], Ok, IfOk, OnOk, length};
ghost use Rattle.bed_deriv.specs.Opening.{alone, opened_anew};
ghost use Rattle.bed_deriv.specs.Checks.{first_failure};
ghost use Rattle.bed_deriv.specs.HeapRules.{params_with, taken, cases_opened, unfold_rule};
ghost use Rattle.bed_check_heap.specs.Parts.{AnswersRoom};
ghost use Rattle.bed_check_heap.specs.Predicates.{OpensCase, OpensCases, all_opened, unfold_predicate, unfold_atom};

use crate::atoms::taken;
use crate::opening::{opened, params_with};
use crate::remainder::no_goals;
use bed_check_pure::Fault;
use bed_check_pure::predicates::predicate_named;
use bed_deriv::arguments::{number_at, numbered};
use bed_deriv::{DArg, Remainder, SymState};
use bed_lang::{Arg, Assertion, Atom, Decls, List, Name, Predicate};
use std::alloc::{AllocError, Global};

fn push_opened(
    alloc: Global,
    out: &mut List<SymState>,
    values: &List<(Name, Arg)>,
    case: &Assertion,
    s: &SymState,
) -> Result<(), AllocError>
    requires { s.now.next + length case.now.binders < 4294967296 }
    ensures { OnOk result (out.new ≡ out.old ++ opened_anew alone values.now case.now s.now ∷ []) }
{
    let state = opened(alloc, values, case, s)?;
    out.push(state)
}

// The state with a case opened in it, at the end of the others.
fn push_case(
    alloc: Global,
    out: &mut List<SymState>,
    values: &List<(Name, Arg)>,
    case: &Assertion,
    s: &SymState,
) -> Result<(), Fault>
    ensures { OpensCase result out.old out.new values.now case.now s.now }
{
    if case.binders.len() > (u32::MAX - s.next) as usize {
        return Err(Fault::Condition);
    }
    match push_opened(alloc, out, values, case, s) {
        Ok(()) => Ok(()),
        Err(_) => Err(Fault::Memory),
    }
}

// The states with each case opened.
fn cases_opened(
    alloc: Global,
    s: &SymState,
    values: &List<(Name, Arg)>,
    cases: &[Assertion],
) -> Result<List<SymState>, Fault>
    ensures { OpensCases result (cases_opened s.now values.now cases.now) }
{
    let mut out = List::new(alloc);
    let mut rest = cases;
    while let [case, more @ ..] = rest {
        match push_case(alloc, &mut out, values, case, s) {
            Ok(()) => {}
            Err(fault) => return Err(fault),
        }
        rest = more;
    }
    Ok(out)
}

fn with_states(alloc: Global, states: List<SymState>) -> Remainder
    ensures { result ≡ all_opened states }
{
    Remainder {
        goals: no_goals(alloc),
        states,
    }
}

// What is left of all cases, in the state without the atom.
#[tactic(auto, using(crate::proofs::RoomLaws::cases_fail))]
fn all_cases(
    alloc: Global,
    s: &SymState,
    values: &List<(Name, Arg)>,
    cases: &[Assertion],
) -> Result<Remainder, Fault>
    ensures { AnswersRoom result (Ok (all_opened (cases_opened s.now values.now cases.now))) }
{
    match cases_opened(alloc, s, values, cases) {
        Ok(states) => Ok(with_states(alloc, states)),
        Err(fault) => Err(fault),
    }
}

// The state without atom i, and the values of the predicate's parameters.
fn taken_with(
    alloc: Global,
    s: &SymState,
    i: u32,
    predicate: &Predicate,
    args: &[Arg],
) -> Result<(SymState, List<(Name, Arg)>), AllocError>
    ensures state { IfOk result (λ r. r.0 ≡ taken s.now i) }
    ensures values { IfOk result (λ r. r.1 ≡ params_with predicate.now.params args.now) }
{
    let state = taken(alloc, s, i)?;
    let values = params_with(alloc, predicate.params.as_slice(), args)?;
    Ok((state, values))
}

fn unfold_predicate(
    alloc: Global,
    s: &SymState,
    i: u32,
    n: usize,
    predicate: &Predicate,
    args: &[Arg],
) -> Result<Remainder, Fault>
    ensures { AnswersRoom result (first_failure (unfold_predicate s.now i n predicate.now args.now)) }
{
    if n != predicate.cases.len() {
        return Err(Fault::Count);
    }
    match taken_with(alloc, s, i, predicate, args) {
        Err(_) => Err(Fault::Memory),
        Ok((state, values)) => all_cases(alloc, &state, &values, predicate.cases.as_slice()),
    }
}

fn unfold_atom(
    alloc: Global,
    decls: &Decls,
    s: &SymState,
    i: u32,
    n: usize,
    x: &Atom,
) -> Result<Remainder, Fault>
    ensures { AnswersRoom result (first_failure (unfold_atom decls.now s.now i n x.now)) }
{
    match x {
        Atom::Pred(name, args) => match predicate_named(decls, name) {
            None => Err(Fault::Condition),
            Some(predicate) => unfold_predicate(alloc, s, i, n, predicate, args.as_slice()),
        },
        _ => Err(Fault::Condition),
    }
}

/// `unfold[i]`: each case of the predicate of atom i, opened in the state without it.
pub(crate) fn unfold(
    alloc: Global,
    decls: &Decls,
    s: &SymState,
    args: &[DArg],
    n: usize,
) -> Result<Remainder, Fault>
    ensures { AnswersRoom result (first_failure (unfold_rule decls.now s.now args.now n)) }
{
    if args.len() != 1 {
        return Err(Fault::Count);
    }
    match number_at(args, 0) {
        None => Err(Fault::Argument),
        Some(i) => match numbered(s.atoms.as_slice(), i) {
            None => Err(Fault::Argument),
            Some(x) => unfold_atom(alloc, decls, s, i, n, x),
        },
    }
}
