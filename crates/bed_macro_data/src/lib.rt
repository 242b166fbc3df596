//! The macros of the statements without a call and without statements in them.
#![tactic(auto)]

mod assignments;
mod hints;
mod instructions;
mod loads;
mod operations;
mod returns;
mod stores;

pub use assignments::Assign;
pub use hints::Hinted;
pub use loads::LoadFrom;
pub use operations::Compute;
pub use returns::Return;
pub use stores::StoreTo;
