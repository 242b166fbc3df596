//! Files, a sink of bytes and hosts, as a program sees them from inside.
//!
//! Each is a trait whose ghost member `seen` is what its callers know of it. [`MemFiles`],
//! [`CalmFiles`] and [`MemSink`] live in memory and tell all that they hold. [`RealFiles`] and
//! [`RealSink`] stand over the system's files and the standard output: their counts of faults are
//! proved, and nothing is told of contents.
#![tactic(auto)]

mod calls;
mod calm_files;
mod counter;
mod files;
mod folder;
mod host;
mod mem_files;
mod mem_sink;
mod real_files;
mod real_sink;
mod sink;

pub use calm_files::CalmFiles;
pub use files::{FileRefusal, Files};
pub use host::Host;
pub use mem_files::MemFiles;
pub use mem_sink::MemSink;
pub use real_files::RealFiles;
pub use real_sink::RealSink;
pub use sink::{Failed, Sink};

#[cfg(test)]
mod tests;
