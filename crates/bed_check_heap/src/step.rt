//! The check of a node for the rest of a condition.
ghost use Rattle.std.specs.Prelude.{Err, IfOk};
ghost use Rattle.bed_check_pure.specs.Answers.{goal_table};
ghost use Rattle.bed_check_pure.specs.Faults.{AnswersRule};
ghost use Rattle.bed_check_heap.specs.Steps.{refused_rest, state_table, stepped, Answers};
ghost use Rattle.bed_deriv.specs.Nodes.{where_walked, children_walked};
ghost use Rattle.bed_check_heap.specs.Parts.{AnswersRoom, raw_rule};
ghost use Rattle.bed_check_heap.specs.Sound.{Leads};

use crate::appending::append;
use crate::blocks::{divide, merge};
use crate::facts::{case_split, claim, never};
use crate::folding::fold;
use crate::remainder::states_have_room;
use crate::shapes::shape;
use crate::unfolding::unfold;
use crate::walk::children_walked;
use bed_check_pure::{Fault, Verdict, fact_rule};
use bed_deriv::{DArg, Deriv, Remainder, Rule, SymState};
use bed_lang::{Decls, List};
use std::alloc::Global;

// The refusal of a rule for facts, which proves no rest of a condition.
fn refused_rest(
    alloc: Global,
    decls: &Decls,
    rule: Rule,
    s: &SymState,
    args: &[DArg],
    n: usize,
) -> Fault
    ensures { AnswersRule (Err result) (refused_rest decls.now rule s.now args.now n) }
{
    match fact_rule(alloc, decls, rule, s, None, args, n) {
        Ok(_) => Fault::Condition,
        Err(fault) => fault,
    }
}

// What a rule leaves, whether or not its states have room.
#[tactic(auto, using(crate::proofs::AnswerLaws::exact_room))]
fn raw_rule(
    alloc: Global,
    decls: &Decls,
    rule: Rule,
    s: &SymState,
    args: &[DArg],
    n: usize,
) -> Result<Remainder, Fault>
    ensures { AnswersRoom result (raw_rule decls.now rule s.now args.now n) }
{
    match rule {
        Rule::Claim => claim(alloc, s, args, n),
        Rule::When => case_split(alloc, s, args, n),
        Rule::Never => never(alloc, args, n),
        Rule::Unfold => unfold(alloc, decls, s, args, n),
        Rule::Fold => fold(alloc, decls, s, args, n),
        Rule::Append => append(alloc, decls, s, args, n),
        Rule::Divide => divide(alloc, s, args, n),
        Rule::Merge => merge(alloc, s, args, n),
        Rule::Shape => shape(alloc, s, args, n),
        Rule::Step => Err(Fault::Condition),
        Rule::Finish => Err(Fault::Condition),
        _ => Err(refused_rest(alloc, decls, rule, s, args, n)),
    }
}

/// What a node of any rule leaves of the rest of a condition that has this state, with these arguments and so
/// many children. Rules that don't change a state leave none.
///
/// # Errors
/// The first premise that fails; where none does and the rule doesn't change a state, the third. `Memory` for
/// want of memory.
#[tactic(auto, using(crate::proofs::AnswerLaws::raw_state))]
pub fn state_rule(
    alloc: Global,
    decls: &Decls,
    rule: Rule,
    s: &SymState,
    args: &[DArg],
    n: usize,
) -> Result<Remainder, Fault>
    ensures { AnswersRule result (state_table decls.now rule s.now args.now n) }
{
    match raw_rule(alloc, decls, rule, s, args, n) {
        Err(fault) => Err(fault),
        Ok(left) => {
            if states_have_room(left.states.as_slice()) {
                Ok(left)
            } else {
                Err(Fault::Condition)
            }
        }
    }
}

// The states that a rule leaves, where the first children prove its facts.
fn after_rule(
    alloc: Global,
    decls: &Decls,
    s: &SymState,
    children: &[Deriv],
    left: Remainder,
) -> Result<List<SymState>, Verdict>
    ensures { Answers result (where_walked left.states (children_walked (goal_table decls.now) s.now children.now left.goals 2)) }
{
    let Remainder { goals, states } = left;
    match children_walked(alloc, decls, s, children, goals.as_slice(), 2) {
        Ok(_) => Ok(states),
        Err(verdict) => Err(verdict),
    }
}

fn checked_node(
    alloc: Global,
    decls: &Decls,
    s: &SymState,
    d: &Deriv,
) -> Result<List<SymState>, Verdict>
    ensures { Answers result (stepped decls.now s.now d.now) }
{
    match state_rule(alloc, decls, d.rule, s, d.args.as_slice(), d.children.len()) {
        Err(Fault::Count) => Err(Verdict::Reject {
            node: 1,
            premise: 1,
        }),
        Err(Fault::Argument) => Err(Verdict::Reject {
            node: 1,
            premise: 2,
        }),
        Err(Fault::Condition) => Err(Verdict::Reject {
            node: 1,
            premise: 3,
        }),
        Err(Fault::Memory) => Err(Verdict::Memory),
        Ok(left) => after_rule(alloc, decls, s, d.children.as_slice(), left),
    }
}

/// Checks a node for the rest of a condition, against these declarations: its own premises, and its first
/// children, which prove facts in its state. It gives the states from which the other children go on. A
/// rule for facts proves no rest of a condition: a node of one is refused by its first failing premise, or
/// else by the third. A node of step or finish fails its third premise here.
///
/// # Errors
/// `Reject` exactly where the node or one in its first children is no instance of its rule: the first in
/// preorder from 1, with its first failing premise. `Memory` for want of memory, and where there are
/// 4294967295 nodes or more.
pub fn heap_step(
    alloc: Global,
    decls: &Decls,
    s: &SymState,
    d: &Deriv,
) -> Result<List<SymState>, Verdict>
    ensures exact { Answers result (stepped decls.now s.now d.now) }
    ensures sound { IfOk result (λ states. Leads decls.now s.now states) }
{
    checked_node(alloc, decls, s, d)
}
