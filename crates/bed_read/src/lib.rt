//! Module texts read into trees, exactly by the grammar.
//!
//! The grammar is `specs/Written`, production by production as the language has it, with its limits as marks on tokens.
//! `specs/Factored` has the same texts and trees, and one token of foresight decides it. Each function that reads gives
//! what reading a nonterminal of that grammar gives (`specs/Tables`), and `specs/Reading` says what the answer of
//! `read_module` means by the written grammar alone.
#![tactic(auto)]

mod assertion;
mod class;
mod declaration;
mod fact;
mod hint;
mod item;
pub mod laws;
mod leaf;
mod operand;
pub mod parts;
mod sequence;
mod simple;
mod source;
mod statement;
mod token;
mod whole;
mod word;

pub use bed_lang::Which;
pub use whole::{ReadError, read_module};
