//! The rest of a condition, and what the nodes of its derivation stand for.
ghost use Rattle.std.specs.Prelude.{◌≡◌, IfOk};

use crate::state::{Sequent, SymState};
use bed_lang::{Action, Goal, List, Pure, Tree};
use std::alloc::{AllocError, Global};

/// The rest of a condition: a state, the actions that are left, and the goal behind them.
#[derive(Drop)]
pub struct Rest {
    pub state: SymState,
    pub actions: List<Action>,
    pub goal: Goal,
}

/// What a node that goes along a path leaves: facts that its first children prove in its own state, and
/// what the other children go on with.
#[derive(Drop)]
pub struct Onward {
    pub goals: List<Pure>,
    pub rests: List<Rest>,
}

/// What a node stands for.
#[derive(Drop)]
pub enum Task {
    /// A fact to be proved in a state.
    Proves(Sequent),
    /// The rest of a condition to be closed.
    Closes(Rest),
}

fn path(
    alloc: Global,
    actions: &List<Action>,
    goal: &Goal,
) -> Result<(List<Action>, Goal), AllocError>
    ensures { IfOk result (λ r. r ≡ (actions.now, goal.now)) }
{
    match actions.copied(alloc) {
        Err(e) => Err(e),
        Ok(actions) => match goal.copy(alloc) {
            Err(e) => Err(e),
            Ok(goal) => Ok((actions, goal)),
        },
    }
}

impl Rest {
    /// A copy, equal to the original.
    ///
    /// # Errors
    /// `AllocError` for want of memory.
    pub fn copy(&self, alloc: Global) -> Result<Rest, AllocError>
        ensures { IfOk result (λ r. r ≡ self.now) }
    {
        let state = self.state.copy(alloc)?;
        let (actions, goal) = path(alloc, &self.actions, &self.goal)?;
        Ok(Rest {
            state,
            actions,
            goal,
        })
    }
}
