//! The linker: modules that may be linked, and what stands where in their code.
#![tactic(auto)]

mod differing;
mod error;
pub mod laws;
mod lengths;
mod linked;
mod outside;
mod parts;
mod resolving;
mod twice;
mod unresolved;

pub use error::LinkError;
pub use linked::Linked;
pub use resolving::resolve;
