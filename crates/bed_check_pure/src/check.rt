//! The check of a derivation, node by node.
ghost use Rattle.std.specs.Prelude.{OnOk};
ghost use Rattle.std.specs.Option.{option_copied};
ghost use Rattle.bed_deriv.specs.Checks.{first_failure, outcome};
ghost use Rattle.bed_deriv.specs.Derives.{pure_rule};
ghost use Rattle.bed_deriv.specs.Walk.{walk, walk_all};
ghost use Rattle.bed_check_pure.specs.Faults.{AnswersRule, AnswersWalk};
ghost use Rattle.bed_check_pure.specs.Answers.{goal_table, walked, Answers};
ghost use Rattle.bed_check_pure.specs.Sound.{Follows};

use crate::fault::Fault;
use crate::goals::goals_have_room;
use crate::verdict::Verdict;
use crate::{chains, labels, refusals, rules, sequences, solving, sums};
use bed_deriv::{DArg, Deriv, Rule, Sequent, SymState};
use bed_lang::{Decls, List, Pure};
use std::alloc::Global;

// What a rule for facts leaves to prove, whether or not its states have room.
fn raw_fact_rule(
    alloc: Global,
    decls: &Decls,
    rule: Rule,
    s: &SymState,
    goal: Option<&Pure>,
    args: &[DArg],
    n: usize,
) -> Result<List<Sequent>, Fault>
    ensures { AnswersRule result (first_failure (pure_rule decls.now rule s.now (option_copied goal.entry) args.now n)) }
{
    match rule {
        Rule::Hyp => rules::hyp(alloc, s, goal, args, n),
        Rule::Norm => rules::norm(alloc, goal, args, n),
        Rule::Comb => sums::comb(alloc, s, goal, args, n),
        Rule::Solve => solving::solve(alloc, s, goal, args, n),
        Rule::Uncons => sequences::uncons(alloc, s, goal, args, n),
        Rule::Chain => chains::chain(alloc, s, goal, args, n),
        Rule::Order => rules::order(alloc, s, goal, args, n),
        Rule::Cut => rules::cut(alloc, s, goal, args, n),
        Rule::Carry => rules::carry(alloc, s, goal, args, n),
        Rule::Split => rules::split(alloc, s, goal, args, n),
        Rule::Absurd => rules::contradiction(alloc, s, goal, args, n),
        Rule::Void => sequences::void(alloc, s, goal, args, n),
        Rule::Member => sequences::member(alloc, s, goal, args, n),
        Rule::Lacks => sequences::lacks(alloc, s, goal, args, n),
        Rule::Part => sequences::part(alloc, s, goal, args, n),
        Rule::One => sequences::one(alloc, s, goal, args, n),
        Rule::Distinct => rules::distinct(alloc, s, goal, args, n),
        Rule::Bound => rules::bound(alloc, s, goal, args, n),
        Rule::Label => labels::label(alloc, decls, goal, args, n),
        _ => Err(Fault::Condition),
    }
}

/// What a rule for facts leaves to prove of a goal in a state, with these arguments and so many children.
/// The goal is None at the rest of a condition, which no such rule proves.
///
/// # Errors
/// The first premise that fails; `Memory` for want of memory.
pub fn fact_rule(
    alloc: Global,
    decls: &Decls,
    rule: Rule,
    s: &SymState,
    goal: Option<&Pure>,
    args: &[DArg],
    n: usize,
) -> Result<List<Sequent>, Fault>
    ensures { AnswersRule result (outcome (pure_rule decls.now rule s.now (option_copied goal.entry) args.now n)) }
{
    match raw_fact_rule(alloc, decls, rule, s, goal, args, n) {
        Err(fault) => Err(fault),
        Ok(goals) => {
            if goals_have_room(goals.as_slice()) {
                Ok(goals)
            } else {
                Err(Fault::Condition)
            }
        }
    }
}

/// What a node of any rule leaves to prove of a goal in a state, with these arguments and so many children.
/// Rules that aren't for facts prove none.
///
/// # Errors
/// The first premise that fails; where none does and the rule isn't for facts, the third. `Memory` for want
/// of memory.
#[tactic(auto, using(crate::proofs::RefusalLaws::claim_is, crate::proofs::RefusalLaws::when_is, crate::proofs::RefusalLaws::never_is, crate::proofs::RefusalLaws::unfold_is, crate::proofs::RefusalLaws::fold_is, crate::proofs::RefusalLaws::append_is, crate::proofs::RefusalLaws::divide_is, crate::proofs::RefusalLaws::merge_is, crate::proofs::RefusalLaws::shape_is), unfolding(crate::specs::Answers::goal_table))]
pub fn goal_rule(
    alloc: Global,
    decls: &Decls,
    rule: Rule,
    q: &Sequent,
    args: &[DArg],
    n: usize,
) -> Result<List<Sequent>, Fault>
    ensures { AnswersRule result (goal_table decls.now rule q.now args.now n) }
{
    match rule {
        Rule::Claim => Err(refusals::claim(&q.state, args, n)),
        Rule::When => Err(refusals::claim(&q.state, args, n)),
        Rule::Never => Err(refusals::never(args, n)),
        Rule::Unfold => Err(refusals::unfold(decls, &q.state, args, n)),
        Rule::Fold => Err(refusals::fold(decls, &q.state, args, n)),
        Rule::Append => Err(refusals::pair(&q.state, args, n)),
        Rule::Divide => Err(refusals::divide(alloc, &q.state, args, n)),
        Rule::Merge => Err(refusals::pair(&q.state, args, n)),
        Rule::Shape => Err(refusals::shape(&q.state, args, n)),
        Rule::Step => Err(Fault::Condition),
        Rule::Finish => Err(Fault::Condition),
        _ => fact_rule(alloc, decls, rule, &q.state, Some(&q.goal), args, n),
    }
}

/// Checks a derivation of a goal in a state, its root having this number, and gives the number after its
/// last node: for trees that are parts of a larger one.
///
/// # Errors
/// As of `check_pure`.
pub fn check_sequent(
    alloc: Global,
    decls: &Decls,
    q: &Sequent,
    d: &Deriv,
    node: u32,
) -> Result<u32, Verdict>
    ensures { AnswersWalk result (walk (goal_table decls.now) d.now q.now node) }
{
    let goals = match goal_rule(alloc, decls, d.rule, q, d.args.as_slice(), d.children.len()) {
        Ok(goals) => goals,
        Err(Fault::Count) => return Err(Verdict::Reject { node, premise: 1 }),
        Err(Fault::Argument) => return Err(Verdict::Reject { node, premise: 2 }),
        Err(Fault::Condition) => return Err(Verdict::Reject { node, premise: 3 }),
        Err(Fault::Memory) => return Err(Verdict::Memory),
    };
    if node == u32::MAX {
        return Err(Verdict::Memory);
    }
    let mut at = node + 1;
    let mut rest = goals.as_slice();
    for child in d.children.as_slice() {
        match rest {
            [] => return Ok(at),
            [goal, more @ ..] => {
                at = check_sequent(alloc, decls, goal, child, at)?;
                rest = more;
            }
        }
    }
    Ok(at)
}

/// Checks a derivation of a fact in a state, against these declarations, by the nineteen rules for facts.
/// Rules that change a state prove no fact: a node of one is refused by its first failing premise, or else
/// by the third. A node of step or finish fails its third premise.
///
/// # Errors
/// `Reject` exactly where some node is no instance of its rule: the first in preorder from 1, with its
/// first failing premise. `Memory` for want of memory, and where the tree has 4294967295 nodes or more.
pub fn check_pure(
    alloc: Global,
    decls: &Decls,
    s: &SymState,
    goal: &Pure,
    d: &Deriv,
) -> Result<(), Verdict>
    ensures exact { Answers result (walked decls.now s.now goal.now d.now) }
    ensures sound { OnOk result (Follows decls.now s.now goal.now) }
{
    check_tree(alloc, decls, s, goal, d)
}

fn check_tree(
    alloc: Global,
    decls: &Decls,
    s: &SymState,
    goal: &Pure,
    d: &Deriv,
) -> Result<(), Verdict>
    ensures { Answers result (walked decls.now s.now goal.now d.now) }
{
    let (Ok(state), Ok(goal)) = (s.copy(alloc), goal.copy(alloc)) else {
        return Err(Verdict::Memory);
    };
    let sequent = Sequent { state, goal };
    match check_sequent(alloc, decls, &sequent, d, 1) {
        Ok(_) => Ok(()),
        Err(verdict) => Err(verdict),
    }
}
