//! The rule on sums of equations.
ghost use Rattle.std.specs.Option.{option_copied};
ghost use Rattle.std.specs.Prelude.{◌≡◌, ◌&&◌, is_some, Some, IfOk};
ghost use Rattle.bed_lang.specs.Forms.{add_forms, times_form};
ghost use Rattle.bed_lang.specs.Differences.{difference};
ghost use Rattle.bed_deriv.specs.Arguments.{fact_at, number_at};
ghost use Rattle.bed_deriv.specs.Checks.{first_failure};
ghost use Rattle.bed_deriv.specs.PureRules.{comb, added_times, is_difference, is_even};
ghost use Rattle.bed_check_pure.specs.Faults.{AnswersRule};
ghost use Rattle.bed_check_pure.specs.Combinations.{pair_sum, sum_at, pairs_known, says_sum, comb_goal, comb_pairs};

use crate::fault::Fault;
use bed_deriv::arguments::{fact_at, number_at};
use bed_deriv::{DArg, Sequent, SymState};
use bed_forms::{add_forms, difference, times_form};
use bed_lang::{Form, List, Pure, Word};
use std::alloc::{AllocError, Global};

// Whether the arguments come in pairs.
fn is_even(args: &[DArg]) -> bool
    ensures { result ≡ is_even args.now }
{
    let mut rest = args;
    while let [_, _, more @ ..] = rest {
        rest = more;
    }
    rest.is_empty()
}

fn pair_known(s: &SymState, args: &[DArg]) -> bool
    ensures { result ≡ (is_some (fact_at s.now args.now 0) && is_some (number_at args.now 1)) }
{
    fact_at(s, args, 0).is_some() && number_at(args, 1).is_some()
}

// Whether each pair is the number of a fact and a number.
fn pairs_known(s: &SymState, args: &[DArg]) -> bool
    ensures { result ≡ pairs_known s.now args.now }
{
    let mut rest = args;
    while let [_, _, more @ ..] = rest {
        if !pair_known(s, rest) {
            return false;
        }
        rest = more;
    }
    rest.is_empty()
}

// A sum with a multiple of a difference before it.
fn with_difference(
    alloc: Global,
    a: &Word,
    b: &Word,
    c: u32,
    total: &Form,
) -> Result<Form, AllocError>
    ensures { IfOk result (λ r. r ≡ add_forms (times_form c (difference a.now b.now)) total.now) }
{
    let form = difference(alloc, a, b)?;
    let form = times_form(alloc, c, &form)?;
    add_forms(alloc, &form, total)
}

fn with_fact(alloc: Global, p: &Pure, c: u32, total: &Form) -> Result<Option<Form>, AllocError>
    ensures { IfOk result (λ r. r ≡ added_times p.now c (Some total.now)) }
{
    match p {
        Pure::Equal(a, b) => Ok(Some(with_difference(alloc, a, b, c, total)?)),
        _ => Ok(None),
    }
}

fn with_pair(
    alloc: Global,
    s: &SymState,
    args: &[DArg],
    total: &Form,
) -> Result<Option<Form>, AllocError>
    ensures { IfOk result (λ r. r ≡ pair_sum (fact_at s.now args.now 0) (number_at args.now 1) (Some total.now)) }
{
    match fact_at(s, args, 0) {
        None => Ok(None),
        Some(p) => match number_at(args, 1) {
            None => Ok(None),
            Some(c) => with_fact(alloc, p, c, total),
        },
    }
}

// The sum of the pairs, from the last one on; None where a fact is no equation of words.
fn sum_at(alloc: Global, s: &SymState, args: &[DArg]) -> Result<Option<Form>, AllocError>
    ensures { IfOk result (λ r. r ≡ sum_at s.now args.now) }
{
    let mut total = Form {
        constant: 0,
        parts: List::new(alloc),
    };
    let mut pairs = args.len() / 2;
    while pairs > 0 {
        pairs -= 1;
        match with_pair(alloc, s, &args[2 * pairs..], &total)? {
            None => return Ok(None),
            Some(sum) => total = sum,
        }
    }
    Ok(Some(total))
}

fn is_difference(alloc: Global, goal: &Pure, form: &Form) -> Result<bool, AllocError>
    ensures { IfOk result (λ r. r ≡ is_difference goal.now form.now) }
{
    match goal {
        Pure::Equal(a, b) => {
            let found = difference(alloc, a, b)?;
            Ok(found.same(form))
        }
        _ => Ok(false),
    }
}

fn says_sum(alloc: Global, goal: &Pure, form: &Form) -> Result<List<Sequent>, Fault>
    ensures { AnswersRule result (first_failure (says_sum goal.now form.now)) }
{
    match is_difference(alloc, goal, form) {
        Err(_) => Err(Fault::Memory),
        Ok(true) => Ok(List::new(alloc)),
        Ok(false) => Err(Fault::Condition),
    }
}

fn comb_goal(
    alloc: Global,
    s: &SymState,
    goal: &Pure,
    args: &[DArg],
) -> Result<List<Sequent>, Fault>
    ensures { AnswersRule result (first_failure (comb_goal s.now args.now goal.now)) }
{
    match sum_at(alloc, s, args) {
        Err(_) => Err(Fault::Memory),
        Ok(None) => Err(Fault::Condition),
        Ok(Some(form)) => says_sum(alloc, goal, &form),
    }
}

fn comb_pairs(
    alloc: Global,
    s: &SymState,
    goal: Option<&Pure>,
    args: &[DArg],
) -> Result<List<Sequent>, Fault>
    ensures { AnswersRule result (first_failure (comb_pairs s.now (option_copied goal.entry) args.now)) }
{
    if !pairs_known(s, args) {
        return Err(Fault::Argument);
    }
    match goal {
        None => Err(Fault::Condition),
        Some(g) => comb_goal(alloc, s, g, args),
    }
}

/// `comb[i1, c1, ..]`: the goal is an equation, and its difference the sum of c times that of each fact i.
#[tactic(auto, using(crate::proofs::CombinationLaws::comb_is))]
pub(crate) fn comb(
    alloc: Global,
    s: &SymState,
    goal: Option<&Pure>,
    args: &[DArg],
    n: usize,
) -> Result<List<Sequent>, Fault>
    ensures { AnswersRule result (first_failure (comb s.now (option_copied goal.entry) args.now n)) }
{
    if n != 0 || !is_even(args) {
        return Err(Fault::Count);
    }
    comb_pairs(alloc, s, goal, args)
}
