//! The layout of code: from the blocks of functions to bytes.
#![tactic(auto)]

mod functions;
mod labels;
pub mod laws;
mod layer;
mod names;
mod put;
mod rows;
mod sizes;

pub use functions::HasBlocks;
pub use layer::{Layer, lay};
