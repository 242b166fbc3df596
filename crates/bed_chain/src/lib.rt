//! Chains and negative cycles: from a state's facts to the edges of difference constraints, and back from
//! what is decided of them to the edges of the rule chain.
#![tactic(auto)]

mod graph;
mod links;
mod table;

pub use graph::{at_most, cycle, less};
