//! The checker of facts: derivations of a goal in a state.
#![tactic(auto)]

mod chains;
mod check;
mod fault;
mod goals;
mod labels;
pub mod laws;
mod legs;
pub mod predicates;
mod refusals;
mod rules;
mod sequences;
mod solving;
mod sums;
mod variables;
mod verdict;

pub use check::{check_pure, check_sequent, fact_rule, goal_rule};
pub use fault::Fault;
pub use rules::negated;
pub use verdict::Verdict;
