//! A macro of a client: two locals change their values.
//!
//! It stands on the trait of macros and on the public laws of blocks and statements alone, as a macro
//! outside the language's own does: nothing below knows it, and what composes macros takes it as it is.
#![tactic(auto)]

mod swaps;

pub use swaps::Swap;
