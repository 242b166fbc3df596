//! The checker of the rest of a condition: rules that change a state, and matches of assertions.
#![tactic(auto)]

mod appending;
mod atoms;
mod blocks;
pub mod examples;
mod facts;
mod folding;
mod instances;
pub mod laws;
mod opening;
mod remainder;
mod segments;
mod shapes;
mod step;
mod unfolding;
mod values;
mod walk;
mod words;

pub use bed_check_pure::Verdict;
pub use instances::{Match, instance, instance_of_terms, match_terms};
pub use step::{heap_step, state_rule};
pub use values::to_values;
pub use walk::children_walked;
