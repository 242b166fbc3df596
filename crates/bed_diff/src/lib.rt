//! Difference constraints: does a bound on the difference of two values follow from other such bounds?
//!
//! A constraint `value(from) <= value(to) + weight` is an edge of a graph, and constraints add up along
//! walks. So a goal follows from edges exactly where some walk between its ends has a total of at most
//! its weight, or where a cycle of negative total shows that no values meet the edges at all; else there
//! are values that meet each edge and not the goal. [`decide`] finds one of the three.
//!
//! Shortest paths find it, by the algorithm of Bellman, Ford and Moore, run once: over the edges together
//! with the reverse of the goal, which is the constraint that the goal fails. Each node begins at 0, and
//! an edge that isn't met lowers the value of its `from`. Where a round changes nothing, the values meet
//! all of the edges, so they meet the given ones and not the goal. Where the last of as many rounds as
//! there are nodes still changes one, the edges that gave the values lead round a cycle of negative
//! total. If the reverse of the goal isn't on it, the given edges contradict each other; if it is, the
//! rest of the cycle is a walk that gives the goal.
//!
//! Each round uses only edges into nodes that the round before changed, and the cycle is also looked for
//! after rounds 1, 2, 4, 8 and so on, since a goal that follows always makes one. The time is at most the
//! product of the numbers of nodes and of edges.
#![tactic(auto)]

mod circuit;
mod constraint;
mod decision;
mod rounds;
mod solution;

pub use constraint::Edge3;
pub use decision::{Decision, decide};
