//! The walk of trees for facts, with a list of its own in place of recursion.
ghost use Rattle.std.specs.Prelude.{◌≡◌, ◌++◌, ◌<◌, Err, IfOk, OnOk};
ghost use Rattle.bed_deriv.specs.Checks.{sequent};
ghost use Rattle.bed_deriv.specs.Nodes.{children_walked};
ghost use Rattle.bed_deriv.specs.Walk.{walk};
ghost use Rattle.bed_check_pure.specs.Answers.{goal_table};
ghost use Rattle.bed_check_pure.specs.Faults.{AnswersRule, AnswersWalk};
ghost use Rattle.bed_deriv.specs.Derives.{purpose};
ghost use Rattle.bed_check_cond.specs.Facts.{goals_walk, goals_waiting, goals_size, is_for_states, is_for_paths, refused_goals, AnswersGoals, AnswersGoalsTurn};
ghost use Rattle.bed_check_cond.specs.Stack.{size};

use bed_check_heap::state_rule;
use bed_check_pure::{Fault, Verdict, fact_rule};
use bed_deriv::{DArg, Deriv, Rule, Sequent, SymState};
use bed_lang::{Decls, List, Pure};
use std::alloc::{AllocError, Global};

/// What is left below a node: the goals from this one on, each in its state, and the children that check
/// them.
#[derive(Drop)]
pub(crate) struct Goals<'a> {
    pub(crate) goals: List<Sequent>,
    pub(crate) at: usize,
    pub(crate) children: &'a [Deriv],
}

/// What a turn at a node leaves: what is left of the node, and what is left below its next child, which comes
/// first.
#[derive(Drop)]
pub(crate) struct Descent<'a> {
    pub(crate) left: Goals<'a>,
    pub(crate) below: Goals<'a>,
}

// Whether the rule changes a state.
fn is_for_states(rule: Rule) -> bool
    ensures { result ≡ is_for_states (purpose rule) }
{
    match rule {
        Rule::Claim => true,
        Rule::When => true,
        Rule::Never => true,
        Rule::Unfold => true,
        Rule::Fold => true,
        Rule::Append => true,
        Rule::Divide => true,
        Rule::Merge => true,
        Rule::Shape => true,
        _ => false,
    }
}

// Whether the rule goes along a path.
fn is_for_paths(rule: Rule) -> bool
    ensures { result ≡ is_for_paths (purpose rule) }
{
    match rule {
        Rule::Step => true,
        Rule::Finish => true,
        _ => false,
    }
}

// The refusal of a rule that changes a state, which proves no fact.
fn refused(alloc: Global, decls: &Decls, rule: Rule, s: &SymState, args: &[DArg], n: usize) -> Fault
    ensures { AnswersRule (Err result) (refused_goals decls.now rule s.now args.now n) }
{
    match state_rule(alloc, decls, rule, s, args, n) {
        Ok(_) => Fault::Condition,
        Err(fault) => fault,
    }
}

// What a node of any rule leaves to prove of a goal in a state.
#[tactic(auto, using(crate::proofs::FactsLemmas::states_prove_none, crate::proofs::FactsLemmas::paths_prove_none, crate::proofs::FactsLemmas::facts_prove))]
fn goals_of(
    alloc: Global,
    decls: &Decls,
    rule: Rule,
    s: &SymState,
    goal: &Pure,
    args: &[DArg],
    n: usize,
) -> Result<List<Sequent>, Fault>
    ensures { AnswersRule result (goal_table decls.now rule (sequent s.now goal.now) args.now n) }
{
    if is_for_states(rule) {
        return Err(refused(alloc, decls, rule, s, args, n));
    }
    if is_for_paths(rule) {
        return Err(Fault::Condition);
    }
    fact_rule(alloc, decls, rule, s, Some(goal), args, n)
}

// Checks a node of this number.
#[tactic(auto, using(crate::proofs::FactsLemmas::node_left, crate::proofs::FactsLemmas::node_refused, crate::proofs::FactsLemmas::smaller_node))]
fn opened<'a>(
    alloc: Global,
    decls: &Decls,
    s: &SymState,
    goal: &Pure,
    d: &'a Deriv,
    node: u32,
) -> Result<Goals<'a>, Verdict>
    ensures walk { AnswersGoals decls.now result node (walk (goal_table decls.now) d.now (sequent s.now goal.now) node) }
    ensures smaller { IfOk result (λ f. goals_size f < size d.now) }
{
    let n = d.children.len();
    match goals_of(alloc, decls, d.rule, s, goal, d.args.as_slice(), n) {
        Err(Fault::Count) => Err(Verdict::Reject { node, premise: 1 }),
        Err(Fault::Argument) => Err(Verdict::Reject { node, premise: 2 }),
        Err(Fault::Condition) => Err(Verdict::Reject { node, premise: 3 }),
        Err(Fault::Memory) => Err(Verdict::Memory),
        Ok(goals) => Ok(Goals {
            goals,
            at: 0,
            children: d.children.as_slice(),
        }),
    }
}

// The next turn at a node: None where nothing is left of it; else its next child is opened.
#[tactic(auto, using(crate::proofs::FactsLemmas::none_left))]
fn turn<'a>(
    alloc: Global,
    decls: &Decls,
    left: Goals<'a>,
    node: u32,
) -> Result<Option<Descent<'a>>, Verdict>
    ensures { AnswersGoalsTurn decls.now result left.entry node }
{
    let Goals {
        goals,
        at,
        children,
    } = left;
    match children {
        [] => Ok(None),
        [child, more @ ..] => match goals.get(at) {
            None => Ok(None),
            Some(q) => match opened(alloc, decls, &q.state, &q.goal, child, node) {
                Err(verdict) => Err(verdict),
                Ok(below) => Ok(Some(Descent {
                    left: Goals {
                        goals,
                        at: at + 1,
                        children: more,
                    },
                    below,
                })),
            },
        },
    }
}

// What is left of a node waits, if its children aren't all checked.
fn wait<'a>(nodes: &mut List<Goals<'a>>, left: Goals<'a>) -> Result<(), AllocError>
    ensures { OnOk result (nodes.new ≡ nodes.old ++ goals_waiting left.entry) }
{
    match left.children {
        [] => Ok(()),
        _ => nodes.push(left),
    }
}

// What a turn leaves waits.
fn wait_both<'a>(nodes: &mut List<Goals<'a>>, turned: Descent<'a>) -> Result<(), AllocError>
    ensures { OnOk result (nodes.new ≡ (nodes.old ++ goals_waiting turned.entry.left) ++ goals_waiting turned.entry.below) }
{
    let Descent { left, below } = turned;
    wait(nodes, left)?;
    wait(nodes, below)
}

// Checks all that is left below a node, and gives the number after its last one.
#[tactic(auto, using(crate::proofs::FactsLemmas::spent, crate::proofs::FactsLemmas::refused))]
fn walk_left<'a>(alloc: Global, decls: &Decls, root: Goals<'a>, first: u32) -> Result<u32, Verdict>
    ensures { AnswersWalk result (goals_walk decls.now root.entry first) }
{
    let mut node = first;
    let mut nodes = List::new(alloc);
    if let Err(_) = nodes.push(root) {
        return Err(Verdict::Memory);
    }
    'turns: loop {
        let Some(last) = nodes.pop() else {
            return Ok(node);
        };
        if let Some(turned) = turn(alloc, decls, last, node)? {
            if node == u32::MAX {
                return Err(Verdict::Memory);
            }
            node += 1;
            if let Err(_) = wait_both(&mut nodes, turned) {
                return Err(Verdict::Memory);
            }
        }
    }
}

// Checks a tree for a goal in a state, its root having this number, and gives the number after its last node.
fn goal_walked(
    alloc: Global,
    decls: &Decls,
    s: &SymState,
    goal: &Pure,
    d: &Deriv,
    node: u32,
) -> Result<u32, Verdict>
    ensures { AnswersWalk result (walk (goal_table decls.now) d.now (sequent s.now goal.now) node) }
{
    match opened(alloc, decls, s, goal, d, node) {
        Err(verdict) => Err(verdict),
        Ok(root) => {
            if node == u32::MAX {
                return Err(Verdict::Memory);
            }
            walk_left(alloc, decls, root, node + 1)
        }
    }
}

/// Checks that the first children prove these goals in this state, in order, and gives the number after
/// their last node; the first child has number `node`.
///
/// # Errors
/// `Reject` exactly where one of them is refused: the first node in preorder that is no instance of its
/// rule, with its first failing premise. `Memory` for want of memory, and where there are
/// 4294967295 nodes or more.
pub(crate) fn children_walked(
    alloc: Global,
    decls: &Decls,
    s: &SymState,
    children: &[Deriv],
    goals: &[Pure],
    node: u32,
) -> Result<u32, Verdict>
    ensures { AnswersWalk result (children_walked (goal_table decls.now) s.now children.now goals.now node) }
{
    let mut at = node;
    let mut rest = goals;
    for child in children {
        match rest {
            [] => return Ok(at),
            [goal, more @ ..] => {
                at = goal_walked(alloc, decls, s, goal, child, at)?;
                rest = more;
            }
        }
    }
    Ok(at)
}
