//! The texts of conditions, and of signatures and predicates on one line: what the program shows of a condition that has no
//! derivation, and of two declarations that differ.
#![tactic(auto)]

mod action;
mod condition;
mod declaration;
mod goal;
mod leaf;
mod list;
mod logic;
mod operand;
mod word;

pub use condition::print_cond;
pub use declaration::{print_predicate, print_signature};
