//! What assertions mean, when a state meets a specification, and when an image is sound.
//!
//! The definitions stand in `specs/`, each with its source. `Assertions` says when an assertion holds
//! on a part of memory, `Frames` when a state meets a signature, `Runs` what a run is beside an
//! outside, and `Sound` what is promised of every run. `Conditions` lists the conditions that a text owes,
//! with `find` and `walk` written out by `Written`, and `Valid` says when a condition is valid. `laws` and
//! `examples` show what they give.
#![tactic(auto)]

mod comparison;
pub mod examples;
pub mod laws;

pub use comparison::eval_pure;
