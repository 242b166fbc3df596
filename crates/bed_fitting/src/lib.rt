//! Modules that the linker accepts fit together, so their code is sound where their conditions are valid.
#![tactic(auto)]

pub mod laws;
