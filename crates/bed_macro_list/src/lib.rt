//! Bodies with each `find` and `walk` in them written out: the statements that these loops over lists stand for.
#![tactic(auto)]

mod copies;
mod hints;
mod invariants;
mod statements;
mod terms;
mod writing;

pub use writing::written;
