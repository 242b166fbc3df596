//! The tokens of a proof text: those of modules, and fresh variables.
#![tactic(auto)]

mod lexing;
mod piece;

pub use lexing::{has_one_proof_scan, proof_scan, proof_tokens};
pub use piece::Piece;
