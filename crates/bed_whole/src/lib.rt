//! Whole programs: modules whose conditions are valid, linked and laid out, are sound.
#![tactic(auto)]

pub mod laws;
