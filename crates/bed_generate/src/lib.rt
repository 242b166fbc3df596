//! The generator: a module of any number of functions, of which each calls the one before it.
#![tactic(auto)]

mod bodies;
mod functions;
mod generator;
mod leaves;
mod logic;

pub use generator::generate;
