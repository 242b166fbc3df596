//! Solving a state: again and again the first fact by which a variable gives way to its value, or whose two
//! sequences both begin with an element. Words stay small, since each is written anew from its form.
#![tactic(auto)]

mod greatest;
mod solution;
mod steps;
mod values;

pub use solution::{Solution, solve};
