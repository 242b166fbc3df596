//! Texts of modules name no fresh variable, and so neither do their conditions.
#![tactic(auto)]

pub mod laws;
