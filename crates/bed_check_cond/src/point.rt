//! Points of a path: the rest of a condition from there, and what a node leaves of it.

use bed_deriv::SymState;
use bed_lang::{Action, Assertion, Goal, List, Pure};

/// What is to hold at a path's end: the condition's goal; or, behind its call, what is to hold then.
#[derive(Clone, Copy)]
pub enum Aim<'a> {
    /// The condition's own goal.
    Whole(&'a Goal),
    /// The assertion that is to hold behind a call.
    Behind(&'a Assertion),
}

/// The actions that are left, and what is to hold behind them.
#[derive(Clone, Copy)]
pub struct Ahead<'a> {
    /// The actions that aren't taken yet, first to last.
    pub actions: &'a [Action],
    /// What is to hold behind the last of them.
    pub aim: Aim<'a>,
}

/// A point of a path: the rest of a condition from there.
#[derive(Drop)]
pub struct Point<'a> {
    /// The symbolic state at this point.
    pub state: SymState,
    /// What lies ahead from here.
    pub ahead: Ahead<'a>,
}

/// What a step leaves: facts to be proved in the state before it, and the state after it.
#[derive(Drop)]
pub(crate) struct Moved {
    pub(crate) goals: List<Pure>,
    pub(crate) state: SymState,
}

/// What a node leaves of a rest: facts to be proved in its own state, and the states from which the path goes
/// on, with what lies ahead of them.
#[derive(Drop)]
pub struct Left<'a> {
    /// Facts to be proved in the node's own state, in order.
    pub goals: List<Pure>,
    /// The states of its children behind the goals, in order.
    pub states: List<SymState>,
    /// What lies ahead of each of these states.
    pub ahead: Ahead<'a>,
}
