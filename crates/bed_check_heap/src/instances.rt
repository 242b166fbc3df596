//! The check of a match.
ghost use Rattle.std.specs.Prelude.{◌≡◌, ◌<◌, length, IfOk};
ghost use Rattle.bed_deriv.specs.declared.derivation.Deriv.{out-Deriv};
ghost use Rattle.bed_deriv.specs.Matches.{numbers_left};
ghost use Rattle.bed_deriv.specs.Checks.{first_failure};
ghost use Rattle.bed_check_heap.specs.Steps.{Answers};
ghost use Rattle.bed_deriv.specs.Nodes.{where_walked, children_walked};
ghost use Rattle.bed_lang.specs.Instances.{terms_with};
ghost use Rattle.bed_deriv.specs.Opening.{replacing};
ghost use Rattle.bed_check_pure.specs.Answers.{goal_table};
ghost use Rattle.bed_check_heap.specs.Instances.{matched};
ghost use Rattle.bed_deriv.specs.Instances.{match_terms, matched_node};
ghost use Rattle.bed_check_heap.specs.Matching.{AnswersMatch, match_left, match_chosen};
ghost use Rattle.bed_check_heap.specs.Sound.{Meets};

use crate::walk::children_walked;
use bed_check_pure::{Fault, Verdict};
use bed_deriv::choice::{all_different, chosen, numbers_left};
use bed_deriv::matching::{count_of_atoms, has_goals_within, match_goals};
use bed_deriv::read::read_terms;
use bed_deriv::{DArg, Deriv, Reading, SymState};
use bed_lang::{Arg, Assertion, Atom, Decls, List, Name, Pure, Term};
use std::alloc::{AllocError, Global};

/// What a match leaves.
#[derive(Drop)]
pub struct Match {
    /// Facts to be proved.
    pub goals: List<Pure>,
    /// The numbers of the atoms that it doesn't take.
    pub left: List<u32>,
}

// A match that leaves these goals, with the atoms that aren't chosen.
fn with_numbers(
    alloc: Global,
    s: &SymState,
    cs: &[(u32, Atom)],
    goals: List<Pure>,
) -> Result<Match, AllocError>
    requires { length s.now.atoms < 4294967296 }
    ensures { IfOk result (λ m. m ≡ record { goals = goals; left = numbers_left cs.now 1 s.now.atoms }) }
{
    let left = numbers_left(alloc, cs, s.atoms.as_slice())?;
    Ok(Match { goals, left })
}

fn numbered(
    alloc: Global,
    s: &SymState,
    cs: &[(u32, Atom)],
    goals: Option<List<Pure>>,
) -> Result<Match, Fault>
    requires { length s.now.atoms < 4294967296 }
    ensures { AnswersMatch result (first_failure (match_left s.now cs.now goals)) }
{
    match goals {
        None => Err(Fault::Condition),
        Some(goals) => match with_numbers(alloc, s, cs, goals) {
            Ok(found) => Ok(found),
            Err(_) => Err(Fault::Memory),
        },
    }
}

// What a match of terms with these atoms leaves.
fn match_chosen(
    alloc: Global,
    s: &SymState,
    terms: &[Term],
    cs: &[(u32, Atom)],
) -> Result<Match, Fault>
    requires { length s.now.atoms < 4294967296 }
    ensures { AnswersMatch result (first_failure (match_chosen s.now terms.now cs.now)) }
{
    if !all_different(cs) {
        return Err(Fault::Condition);
    }
    match match_goals(alloc, terms, cs) {
        Err(_) => Err(Fault::Memory),
        Ok(goals) => numbered(alloc, s, cs, goals),
    }
}

fn match_listed(
    alloc: Global,
    s: &SymState,
    terms: &[Term],
    cs: List<(u32, Atom)>,
) -> Result<Match, Fault>
    requires { length s.now.atoms < 4294967296 }
    ensures { AnswersMatch result (first_failure (match_chosen s.now terms.now cs)) }
{
    match_chosen(alloc, s, terms, cs.as_slice())
}

/// What a match of terms leaves, at a node with these arguments and so many children: the last arguments are
/// the atoms that it takes.
///
/// # Errors
/// The first premise that fails: `Count` where there are fewer arguments than atoms, or fewer children than
/// facts. `Memory` for want of memory.
pub fn match_terms(
    alloc: Global,
    s: &SymState,
    terms: &[Term],
    args: &[DArg],
    n: usize,
) -> Result<Match, Fault>
    requires { length s.now.atoms < 4294967296 }
    ensures { AnswersMatch result (first_failure (match_terms s.now terms.now args.now n)) }
{
    let atoms = count_of_atoms(terms);
    if atoms > args.len() || !has_goals_within(terms, n) {
        return Err(Fault::Count);
    }
    match chosen(alloc, s.atoms.as_slice(), &args[args.len() - atoms..]) {
        Err(_) => Err(Fault::Memory),
        Ok(None) => Err(Fault::Argument),
        Ok(Some(cs)) => match_listed(alloc, s, terms, cs),
    }
}

// The numbers of the atoms that a match doesn't take, where the first children prove its facts.
fn after_match(
    alloc: Global,
    decls: &Decls,
    s: &SymState,
    children: &[Deriv],
    found: Match,
    node: u32,
) -> Result<List<u32>, Verdict>
    ensures { Answers result (where_walked found.left (children_walked (goal_table decls.now) s.now children.now found.goals node)) }
{
    let Match { goals, left } = found;
    match children_walked(alloc, decls, s, children, goals.as_slice(), node) {
        Ok(_) => Ok(left),
        Err(verdict) => Err(verdict),
    }
}

/// Checks a match of terms with atoms of a state at a node of this number: the last arguments are the
/// numbers of the atoms, one for each atom of the terms, and the first children prove the equations of their
/// arguments and the facts among the terms. It gives the numbers of the atoms that are left.
///
/// # Errors
/// As of `instance`.
pub fn instance_of_terms(
    alloc: Global,
    decls: &Decls,
    s: &SymState,
    terms: &[Term],
    d: &Deriv,
    node: u32,
) -> Result<List<u32>, Verdict>
    requires { length s.now.atoms < 4294967296 }
    ensures { Answers result (matched_node (goal_table decls.now) s.now terms.now (out-Deriv d.now) node) }
{
    match match_terms(alloc, s, terms, d.args.as_slice(), d.children.len()) {
        Err(Fault::Count) => Err(Verdict::Reject { node, premise: 1 }),
        Err(Fault::Argument) => Err(Verdict::Reject { node, premise: 2 }),
        Err(Fault::Condition) => Err(Verdict::Reject { node, premise: 3 }),
        Err(Fault::Memory) => Err(Verdict::Memory),
        Ok(found) => {
            if node == u32::MAX {
                return Err(Verdict::Memory);
            }
            after_match(alloc, decls, s, d.children.as_slice(), found, node + 1)
        }
    }
}

fn matched_list(
    alloc: Global,
    decls: &Decls,
    s: &SymState,
    terms: List<Term>,
    d: &Deriv,
) -> Result<List<u32>, Verdict>
    requires { length s.now.atoms < 4294967296 }
    ensures { Answers result (matched_node (goal_table decls.now) s.now terms (out-Deriv d.now) 1) }
{
    instance_of_terms(alloc, decls, s, terms.as_slice(), d, 1)
}

fn matched(
    alloc: Global,
    decls: &Decls,
    s: &SymState,
    goal: &Assertion,
    values: &List<(Name, Arg)>,
    d: &Deriv,
) -> Result<List<u32>, Verdict>
    requires { length s.now.atoms < 4294967296 }
    ensures { Answers result (matched decls.now s.now goal.now values.now d.now) }
{
    match named_terms(alloc, values.as_slice(), goal.terms.as_slice()) {
        Err(_) => Err(Verdict::Memory),
        Ok(terms) => matched_list(alloc, decls, s, terms, d),
    }
}

// The terms with each name that has a value in its place.
fn named_terms(
    alloc: Global,
    values: &[(Name, Arg)],
    terms: &[Term],
) -> Result<List<Term>, AllocError>
    ensures { IfOk result (λ r. r ≡ terms_with (replacing values.now) terms.now) }
{
    read_terms(alloc, &Reading::Names(values), terms)
}

/// Checks a match of an assertion's terms, its names replaced by their values, with atoms of a state: the
/// last arguments of the node are their numbers, one for each atom of the terms, and its first children
/// prove the equations of their arguments and the facts among the terms. It gives the numbers of the atoms
/// that are left.
///
/// # Errors
/// `Reject` exactly where the node is no such match or one in its first children is no instance of its
/// rule: the first in preorder from 1, with its first failing premise. `Memory` for want of memory, and
/// where there are 4294967295 nodes or more.
pub fn instance(
    alloc: Global,
    decls: &Decls,
    s: &SymState,
    goal: &Assertion,
    values: &List<(Name, Arg)>,
    d: &Deriv,
) -> Result<List<u32>, Verdict>
    requires numbers_fit { length s.now.atoms < 4294967296 }
    ensures exact { Answers result (matched decls.now s.now goal.now values.now d.now) }
    ensures sound { IfOk result (λ left. Meets decls.now s.now goal.now values.now left) }
{
    matched(alloc, decls, s, goal, values, d)
}
