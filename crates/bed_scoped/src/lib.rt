//! Modules that keep the rules of names: linked, their code is sound where their conditions are valid.
#![tactic(auto)]

pub mod laws;
