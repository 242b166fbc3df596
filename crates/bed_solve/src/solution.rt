//! A state solved, with the nodes of solving.
ghost use Rattle.std.specs.Prelude.{◌≡◌, ◌∷◌, ◌++◌, [], map, IfOk, OnOk};
ghost use Rattle.bed_deriv.specs.Opening.{replaced_fact};
ghost use Rattle.bed_lang.specs.declared.logic.Pure.{Pure};
ghost use Rattle.bed_deriv.specs.declared.state.SymState.{SymState};
ghost use Rattle.bed_plain.specs.Trees.{node};
ghost use Rattle.bed_plain.specs.Solving.{setting, solving, solved_goal, solving_tree};
ghost use Rattle.bed_solve.specs.Solutions.{IsSolution, reading_alone, unsolved, with_step, read_all, under};

use crate::steps::{facts_anew, first_step};
use bed_deriv::{DArg, Deriv, Reading, Rule, SymState};
use bed_lang::{Arg, List, Pure, Var, Word};
use bed_plain::{Solved, node};
use std::alloc::{AllocError, Global};

const MOST_STEPS: u64 = 4_294_967_296;

/// What solving a state gives.
#[derive(Drop)]
pub struct Solution {
    /// The nodes of solving, in their order: each rule with its arguments.
    pub nodes: List<(Rule, List<DArg>)>,
    /// The variables that gave way, each with its value, in order.
    pub readings: List<(Var, Arg)>,
    /// The state after the last step.
    pub state: SymState,
}

fn push_reading(
    readings: &mut List<(Var, Arg)>,
    reading: Option<(Var, Arg)>,
) -> Result<(), AllocError>
    ensures { OnOk result (readings.new ≡ readings.old ++ reading_alone reading) }
{
    match reading {
        None => Ok(()),
        Some(reading) => readings.push(reading),
    }
}

// Puts a step behind those of a solution.
fn push_step(out: &mut Solution, step: Solved) -> Result<(), AllocError>
    ensures { OnOk result (out.new ≡ with_step out.old step) }
{
    out.nodes.push((step.rule, step.args))?;
    push_reading(&mut out.readings, step.reading)?;
    out.state = step.state;
    Ok(())
}

fn beginning(alloc: Global, s: &SymState) -> Result<Solution, AllocError>
    ensures { IfOk result (λ r. r ≡ unsolved s.now) }
{
    Ok(Solution {
        nodes: List::new(alloc),
        readings: List::new(alloc),
        state: s.copy(alloc)?,
    })
}

/// The state solved: again and again the first fact not yet taken by which a variable gives way, or which
/// can be taken apart.
///
/// # Errors
/// `AllocError` for want of memory, where a form has more than 8,192 parts or pieces, and where there are
/// more than 4294967295 facts, whose numbers 32 bits don't hold.
pub fn solve(alloc: Global, s: &SymState) -> Result<Solution, AllocError>
    ensures { IfOk result (IsSolution s.now) }
{
    let mut out = beginning(alloc, s)?;
    let mut taken: List<u32> = List::new(alloc);
    let mut left = MOST_STEPS;
    while left > 0 {
        match first_step(alloc, &out.state, taken.as_slice())? {
            None => return Ok(out),
            Some(step) => {
                taken.push(step.fact)?;
                push_step(&mut out, step)?;
            }
        }
        left -= 1;
    }
    Ok(out)
}

fn goals_set(alloc: Global, reading: &(Var, Arg), goals: &[Pure]) -> Result<List<Pure>, AllocError>
    ensures { IfOk result (λ r. r ≡ map (replaced_fact (setting reading.now)) goals.now) }
{
    match &reading.1 {
        Arg::Word(_, w) => facts_anew(alloc, &Reading::Word(&reading.0, w), goals),
        Arg::Seq(_, t) => facts_anew(alloc, &Reading::Seq(&reading.0, t), goals),
        Arg::Bare(_) => facts_anew(alloc, &Reading::Word(&reading.0, &Word::Number(0)), goals),
    }
}

fn goal_alone(alloc: Global, goal: &Pure) -> Result<List<Pure>, AllocError>
    ensures { IfOk result (λ r. r ≡ goal.now ∷ []) }
{
    let mut out = List::new(alloc);
    let goal = goal.copy(alloc)?;
    out.push(goal)?;
    Ok(out)
}

fn first_copy(alloc: Global, goals: &[Pure]) -> Result<Pure, AllocError>
    ensures { IfOk result (λ r. (g : Pure) → goals.now ≡ g ∷ [] → r ≡ g) }
{
    match goals {
        [] => Err(AllocError),
        [goal, ..] => goal.copy(alloc),
    }
}

// A goal read with these values, one after the other. It stands in a list of one, whose drop is a call.
fn read_all(alloc: Global, readings: &[(Var, Arg)], goal: &Pure) -> Result<Pure, AllocError>
    ensures { IfOk result (λ r. r ≡ read_all readings.now goal.now) }
{
    let mut goals = goal_alone(alloc, goal)?;
    for reading in readings {
        goals = goals_set(alloc, reading, goals.as_slice())?;
    }
    first_copy(alloc, goals.as_slice())
}

fn push_copy(alloc: Global, out: &mut List<DArg>, arg: &DArg) -> Result<(), AllocError>
    ensures { OnOk result (out.new ≡ out.old ++ arg.now ∷ []) }
{
    let arg = arg.copy(alloc)?;
    out.push(arg)
}

fn args_copied(alloc: Global, args: &[DArg]) -> Result<List<DArg>, AllocError>
    ensures { IfOk result (λ r. r ≡ args.now) }
{
    let mut out = List::new(alloc);
    for arg in args {
        push_copy(alloc, &mut out, arg)?;
    }
    Ok(out)
}

// A node with one child.
fn above(alloc: Global, place: &(Rule, List<DArg>), tree: Deriv) -> Result<Deriv, AllocError>
    ensures { IfOk result (λ r. r ≡ node place.now.0 place.now.1 (tree ∷ [])) }
{
    let children = tree_alone(alloc, tree)?;
    let args = args_copied(alloc, place.1.as_slice())?;
    Ok(node(place.0, args, children))
}

fn tree_alone(alloc: Global, tree: Deriv) -> Result<List<Deriv>, AllocError>
    ensures { IfOk result (λ r. r ≡ tree ∷ []) }
{
    let mut out = List::new(alloc);
    out.push(tree)?;
    Ok(out)
}

impl Solution {
    /// A goal as it is read after solving.
    ///
    /// # Errors
    /// As of `solve`.
    pub fn goal(&self, alloc: Global, goal: &Pure) -> Result<Pure, AllocError>
        ensures { (s : SymState) → IsSolution s self.now → IfOk result (λ r. r ≡ solved_goal s goal.now) }
    {
        read_all(alloc, self.readings.as_slice(), goal)
    }

    /// A tree below the nodes of solving.
    ///
    /// # Errors
    /// `AllocError` for want of memory.
    pub fn under(&self, alloc: Global, tree: Deriv) -> Result<Deriv, AllocError>
        ensures { (s : SymState) → IsSolution s self.now → IfOk result (λ r. r ≡ solving_tree (solving s) tree) }
    {
        under(alloc, self.nodes.as_slice(), tree)
    }
}

// A tree below these nodes.
fn under(alloc: Global, nodes: &[(Rule, List<DArg>)], tree: Deriv) -> Result<Deriv, AllocError>
    ensures { IfOk result (λ r. r ≡ under nodes.now tree) }
{
    let mut whole = tree;
    let mut left = nodes.len();
    while left > 0 {
        left -= 1;
        whole = above(alloc, &nodes[left], whole)?;
    }
    Ok(whole)
}
