//! The words of a command: which command they are, or the first wrong word.
#![tactic(auto)]

mod call;
mod command;
mod laws;
mod making;
mod options;
mod values;
mod verb;

pub use bed_lang::Which;
pub use call::read_command;
pub use command::{Command, CommandError, Job, Start};
pub use laws::{has_an_answer, has_one_answer, has_one_command};
