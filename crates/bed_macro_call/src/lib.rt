//! The macro of calls: of names and through variables alike, since the next activation is found by the
//! code map in both.
#![tactic(auto)]

mod calls;
mod instructions;

pub use calls::Call;
