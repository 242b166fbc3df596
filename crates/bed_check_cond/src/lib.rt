//! The checker of whole conditions: a tree of rules against a condition, by one walk that keeps lists of its own
//! in place of recursion.
#![tactic(auto)]

mod actions;
mod after;
mod bytes;
mod calls;
mod compute;
mod condition;
mod ends;
mod facts;
pub mod laws;
mod operands;
mod point;
mod rests;
mod values;

pub use after::onward;
pub use bed_check_pure::Verdict;
pub use condition::check;
pub use point::{Ahead, Aim, Left, Point};
