//! Macros: what stands for statements, with the laws of its blocks.
//!
//! A macro gives blocks and conditions, and proves once for all that the blocks keep their
//! specifications where the conditions are valid, and that they are the code table's bytes of its
//! statements. What blocks keep is said in `bed_laws`, over blocks and paths alone; so a client writes
//! a macro of its own through the trait, and nothing above looks inside a macro.
#![tactic(auto)]

mod choices;
mod conditions;
mod expanded;
mod loops;
mod macros;
mod paths;
mod sequences;
mod sites;
mod skips;

pub use choices::Choice;
pub use conditions::{condition, meet, meet_at, push_condition};
pub use expanded::Expanded;
pub use loops::Loop;
pub use macros::Macro;
pub use paths::Path;
pub use sequences::Then;
pub use sites::{Site, push_jump};
pub use skips::Skip;
