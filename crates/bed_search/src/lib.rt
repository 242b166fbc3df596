//! The search for a derivation of a condition, over any ways of closing facts and of picking steps: what is to
//! be done along a path, the trees that the procedure closes a condition with, what a search answers, what it
//! stands on, and the search itself.
#![tactic(auto)]

mod ahead;
mod given;
pub mod laws;
mod layers;
mod searching;
mod tree;
mod trees;

pub use ahead::{Todo, to_do};
pub use given::{given_value, local_values, read_arg_anew};
pub use layers::{Falsity, Layers, Step};
pub use searching::search;
pub use tree::Measured;
