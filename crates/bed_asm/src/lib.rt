//! The assembler: from one instruction to its bytes.
#![tactic(auto)]

mod encoder;

pub use encoder::encode;
