//! Normal forms: a word as a constant and coefficients on variables and labels, a sequence as a list
//! of pieces; what is read through them, and what is written anew from them.
#![tactic(auto)]

mod facts;
pub mod laws;
mod normal;
mod rebuild;
mod rewrite;
mod sum;

pub use bed_lang::{Form, Key, Piece};
pub use facts::{by_norm, same_facts};
pub use normal::{difference, seq_form, word_form};
pub use rebuild::{form_word, pieces_seq, rebuilt_seq, rebuilt_word};
pub use rewrite::{Rewrite, rewrite_arg, rewrite_atom, rewrite_fact, rewrite_term};
pub use sum::{add_forms, times_form};
