//! Modules without bare arguments: each name alone is the word or the sequence that its place asks for.

mod items;
mod statements;
mod terms;

pub(crate) use items::module;
