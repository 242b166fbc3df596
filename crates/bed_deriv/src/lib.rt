//! Derivations as data, the states that they speak of, and the state that a condition opens.
//!
//! Which trees derive a condition stands in `specs/`: `Derives` has all rules in one table, `Walk` how a
//! tree is checked node by node, `Opening` what a condition's start is, and the other files the rules, each
//! beside a comment that says it.
#![tactic(auto)]

pub mod arguments;
mod beginning;
pub mod choice;
mod derivation;
mod facts;
pub mod known;
pub mod matching;
pub mod read;
mod reading;
mod rest;
mod state;

pub use beginning::{fresh_value, push_fresh, start};
pub use derivation::{DArg, Deriv, Edge, Rule};
pub use facts::negation;
pub use reading::{Reading, read_seq, read_word};
pub use rest::{Onward, Rest, Task};
pub use state::{Remainder, Sequent, SymState};
