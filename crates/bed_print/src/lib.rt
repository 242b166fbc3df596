//! Modules printed as texts that read back as them.
#![tactic(auto)]

mod class;
mod hint;
mod item;
mod layout;
mod leaf;
mod list;
mod logic;
mod operand;
mod print;
mod sequence;
mod statement;
mod word;

pub use print::print_module;
