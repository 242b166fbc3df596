//! Proof texts: the derivations of conditions, written down.
//!
//! The definitions are those of `specs/`: how rules and edges are spelled (`Spellings`), the grammar of derivations
//! (`Written`) with the tables that decide it (`Tables`), and proof texts with the place where a text is bad (`Texts`).
#![tactic(auto)]

mod laws;

pub use laws::{has_an_answer, has_one_list, has_one_place, is_not_bad};
