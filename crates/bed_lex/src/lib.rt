//! The tokens of a text.
#![tactic(auto)]

mod front;
mod lexing;
mod token;

pub use front::{Front, digits, find_front, fixed, letter, name_byte};
pub use lexing::{
    Scanned, has_a_scan, has_one_scan, has_word_numbers, scan, takes_longest_mark, tokens,
};
pub use token::{Kind, LexError, MARKS, Token, WORDS};
