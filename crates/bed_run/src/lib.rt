//! Runs: the machine turn by turn, with hosts for the outside.
//!
//! [`run`] makes exactly the run of `specs/Hosted.antt`: its end, the state that it leaves, the hosts' logs and
//! the addresses that a [`Trace`] keeps.
#![tactic(auto)]

mod arguments;
mod ended;
mod hosts;
mod running;
mod trace;

pub use ended::Ended;
pub use running::run;
pub use trace::Trace;
