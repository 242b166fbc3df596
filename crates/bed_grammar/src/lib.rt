//! Grammars as data, and reading them with one token of foresight.
//!
//! A reader of tokens is written by recursive descent, and each of its functions promises that it returns what `parse`
//! gives for a nonterminal of its grammar. The laws of `Ll1` then say what that means: the tokens are a text of the
//! grammar with this tree and no other, or the first wrong token is named. The definitions are those of
//! `specs/`: grammars and derivations (`Grammar`), tables (`Tables`), reading (`Parsing`), exactness (`Exact`) and the
//! words for contracts (`Gives`). The lemmas for the proofs of readers are in `proofs/Reading`.
#![tactic(auto)]

mod ll1;
mod refusal;
mod tokens;

pub use ll1::{Ll1, exact_prefix, exact_whole, one_refusal, step, unambiguous};
pub use refusal::Refusal;
pub use tokens::{Token, looks_at, looks_at_any, take};

#[cfg(test)]
mod tests;
