//! The layers below the search.
ghost use Rattle.std.specs.Prelude.{◌≡◌, true, None, IfOk};
ghost use Rattle.bed_deriv.specs.Checks.{has_room};
ghost use Rattle.bed_search.specs.Given.{given_by};
ghost use Rattle.bed_search.specs.Procedure.{Ways};
ghost use Rattle.bed_search.specs.Layers.{Refutes, Steps};

use crate::ahead::Todo;
use crate::tree::Measured;
use bed_deriv::{DArg, Deriv, Rest, Rule, SymState};
use bed_lang::{Arg, List, Name};
use std::alloc::{AllocError, Global};

/// Whether a state is plainly false.
#[derive(Drop)]
pub enum Falsity {
    /// It is, and this tree derives `1 = 0`.
    Shown(Measured),
    /// It is, but the trees that show it are too large.
    TooLarge,
    /// It isn't.
    Not,
}

/// A node whose first children are proved, with the sizes of their trees together, and what it leaves.
#[derive(Drop)]
pub struct Step {
    pub rule: Rule,
    pub args: List<DArg>,
    pub proofs: List<Deriv>,
    /// How many nodes the proofs have together.
    pub nodes: u32,
    /// The greatest nesting of a proof.
    pub nesting: u32,
    /// The rests that are left to be closed.
    pub rests: List<Rest>,
}

/// What the search stands on: how facts are closed, and what each thing to do picks.
pub trait Layers {
    ghost ways: { Self → Ways };

    /// Whether a state is plainly false, shown by a tree of at most so many nodes and so deep a nesting.
    ///
    /// # Errors
    /// `AllocError` for want of memory.
    fn refute(
        &self,
        alloc: Global,
        s: &SymState,
        nodes: u32,
        nesting: u32,
    ) -> Result<Falsity, AllocError>
        requires room { has_room s.now ≡ true }
        ensures { IfOk result (λ f. Refutes (ways self.now) s.now nodes nesting f) };

    /// The step for a thing to do that is no hint `give`, its facts proved by trees that have at most so many
    /// nodes together and so deep a nesting. `None` where there is no such step.
    ///
    /// # Errors
    /// `AllocError` for want of memory.
    fn step(
        &self,
        alloc: Global,
        x: &Todo,
        gives: &[(Name, Arg)],
        rest: &Rest,
        nodes: u32,
        nesting: u32,
    ) -> Result<Option<Step>, AllocError>
        requires room { has_room rest.now.state ≡ true }
        requires makes { given_by x.now ≡ None }
        ensures { IfOk result (λ o. Steps (ways self.now) x.now gives.now rest.now nodes nesting o) };
}
