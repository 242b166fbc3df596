//! The top call: it does all that the program does.
#![tactic(auto)]

mod asked;
mod call;
mod files;
mod judge;
pub mod laws;
mod line;
mod modules;
mod place;
mod plan;
mod report;
mod returns;
mod stages;
mod status;
mod texts;

pub use bed_io::{
    CalmFiles, Failed, FileRefusal, Files, Host, MemFiles, MemSink, RealFiles, RealSink, Sink,
};
pub use call::top;
pub use status::{NameKind, Status, SyntaxKind};
