//! The rules of names: which module texts may be used, and what their names stand for.
#![tactic(auto)]

mod assertions;
mod declarations;
mod declared;
mod error;
mod found;
mod functions;
mod index;
mod inside;
mod items;
pub mod laws;
mod limits;
mod prelude;
mod resolving;
mod scoped;
mod statements;
mod table;
mod terms;
mod twice;
mod visible;

pub use error::NameError;
pub use scoped::{Scoped, scope};
pub use table::Table;
