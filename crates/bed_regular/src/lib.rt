//! Functions of modules that keep the rules of names: their blocks' demands are met, so both laws hold of them.
#![tactic(auto)]

pub mod laws;
