//! Predicates by their names, and what a node of `fold` has to have.
ghost use Rattle.std.specs.Option.{option_copied};
ghost use Rattle.std.specs.Prelude.{◌≡◌, ◌+◌, ◌==◌};
ghost use Rattle.bed_lang.specs.Lookups.{predicate_named};
ghost use Rattle.bed_deriv.specs.Matches.{count_of_goals};
ghost use Rattle.bed_check_pure.specs.Refusals.{fold_counts};

use bed_deriv::DArg;
use bed_deriv::matching::{count_of_atoms, has_goals_within};
use bed_lang::{Assertion, Decls, Name, Predicate, Term};

/// The predicate that is declared by a name, if one is; of several the first.
pub fn predicate_named<'a>(decls: &'a Decls, name: &Name) -> Option<&'a Predicate>
    ensures { option_copied result ≡ predicate_named decls.now name.now.bytes }
{
    decls
        .predicates
        .as_slice()
        .iter()
        .find(|p| p.name.same(name))
}

// Whether a number is 2 and three others together.
#[tactic(auto, using(crate::proofs::CountLaws::sum_same, crate::proofs::CountLaws::sum_past))]
fn is_sum(total: usize, a: usize, b: usize, c: usize) -> bool
    ensures { result ≡ (total == 2 + a + b + c) }
{
    if total < 2 {
        return false;
    }
    let left = total - 2;
    if left < a {
        return false;
    }
    let left = left - a;
    if left < b {
        return false;
    }
    left - b == c
}

// Whether a number is one more than that of the goals of a match.
#[tactic(auto, using(crate::proofs::CountLaws::none_after, crate::proofs::CountLaws::one_after, crate::proofs::CountLaws::many_after, crate::proofs::CountLaws::few_after))]
fn is_after_goals(terms: &[Term], n: usize) -> bool
    ensures { result ≡ (n == count_of_goals terms.now + 1) }
{
    if n == 0 {
        return false;
    }
    if n == 1 {
        return has_goals_within(terms, 0);
    }
    has_goals_within(terms, n - 1) && !has_goals_within(terms, n - 2)
}

/// Whether a node of `fold` by this case of the predicate has as many arguments and children as it takes:
/// the predicate's name and the case's number, values of the parameters and of the case's binders, and the
/// atoms; and the children of the match and one more.
pub fn fold_counts(args: &[DArg], n: usize, predicate: &Predicate, case: &Assertion) -> bool
    ensures { result ≡ fold_counts args.now n predicate.now case.now }
{
    let terms = case.terms.as_slice();
    let atoms = count_of_atoms(terms);
    is_sum(
        args.len(),
        predicate.params.len(),
        case.binders.len(),
        atoms,
    ) && is_after_goals(terms, n)
}
