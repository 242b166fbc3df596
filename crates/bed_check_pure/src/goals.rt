//! What the children of a node prove.
ghost use Rattle.std.specs.Prelude.{◌≡◌, ◌∷◌, ◌++◌, [], map, IfOk, OnOk};
ghost use Rattle.bed_deriv.specs.Checks.{have_room, states_of, with_fact, sequent};

use bed_deriv::{Sequent, SymState};
use bed_lang::{List, Pure};
use std::alloc::{AllocError, Global};

// A fact in a state, at the end of the goals.
fn push_goal(
    alloc: Global,
    out: &mut List<Sequent>,
    state: &SymState,
    goal: &Pure,
) -> Result<(), AllocError>
    ensures { OnOk result (out.new ≡ out.old ++ sequent state.now goal.now ∷ []) }
{
    let state = state.copy(alloc)?;
    let goal = goal.copy(alloc)?;
    out.push(Sequent { state, goal })
}

// A goal in a state with a further fact, at the end of the goals.
fn push_known(
    alloc: Global,
    out: &mut List<Sequent>,
    s: &SymState,
    fact: &Pure,
    goal: &Pure,
) -> Result<(), AllocError>
    ensures { OnOk result (out.new ≡ out.old ++ sequent (with_fact s.now fact.now) goal.now ∷ []) }
{
    let fact = fact.copy(alloc)?;
    let state = s.with_fact(alloc, fact)?;
    let goal = goal.copy(alloc)?;
    out.push(Sequent { state, goal })
}

/// A list of one goal.
pub(crate) fn one_sequent(alloc: Global, q: Sequent) -> Result<List<Sequent>, AllocError>
    ensures { IfOk result (λ r. r ≡ q ∷ []) }
{
    let mut out = List::new(alloc);
    out.push(q)?;
    Ok(out)
}

/// One fact, in the node's own state.
pub(crate) fn one_goal(alloc: Global, s: &SymState, p: &Pure) -> Result<List<Sequent>, AllocError>
    ensures { IfOk result (λ r. r ≡ sequent s.now p.now ∷ []) }
{
    let mut out = List::new(alloc);
    push_goal(alloc, &mut out, s, p)?;
    Ok(out)
}

/// These facts, in the node's own state.
pub(crate) fn goals_of(
    alloc: Global,
    s: &SymState,
    facts: &[Pure],
) -> Result<List<Sequent>, AllocError>
    ensures { IfOk result (λ r. r ≡ map (sequent s.now) facts.now) }
{
    let mut out = List::new(alloc);
    for p in facts {
        push_goal(alloc, &mut out, s, p)?;
    }
    Ok(out)
}

/// A fact, and the node's own goal with it.
pub(crate) fn goal_and_known(
    alloc: Global,
    s: &SymState,
    p: &Pure,
    goal: &Pure,
) -> Result<List<Sequent>, AllocError>
    ensures { IfOk result (λ r. r ≡ sequent s.now p.now ∷ sequent (with_fact s.now p.now) goal.now ∷ []) }
{
    let mut out = List::new(alloc);
    push_goal(alloc, &mut out, s, p)?;
    push_known(alloc, &mut out, s, p, goal)?;
    Ok(out)
}

/// The node's own goal, with one fact and with another.
pub(crate) fn either_known(
    alloc: Global,
    s: &SymState,
    first: &Pure,
    second: &Pure,
    goal: &Pure,
) -> Result<List<Sequent>, AllocError>
    ensures { IfOk result (λ r. r ≡ sequent (with_fact s.now first.now) goal.now ∷ sequent (with_fact s.now second.now) goal.now ∷ []) }
{
    let mut out = List::new(alloc);
    push_known(alloc, &mut out, s, first, goal)?;
    push_known(alloc, &mut out, s, second, goal)?;
    Ok(out)
}

/// Whether each state has room.
pub(crate) fn goals_have_room(goals: &[Sequent]) -> bool
    ensures { result ≡ have_room (states_of goals.now) }
{
    let mut rest = goals;
    while let [goal, more @ ..] = rest {
        if !goal.state.has_room() {
            return false;
        }
        rest = more;
    }
    true
}
