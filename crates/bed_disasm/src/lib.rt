//! The disassembler: the listing of an image, and the line of an address of its code.
//!
//! `specs/Text.antt` has the text of each instruction, `specs/Listing.antt` the lines and their order, and
//! `specs/Laws.antt` what holds of every image.
#![tactic(auto)]

mod instructions;
pub mod laws;
mod lines;
mod names;
mod numbers;

pub use lines::{line, listing};
pub use numbers::push_word;
