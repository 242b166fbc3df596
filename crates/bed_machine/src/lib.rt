//! A subset of the IA-32 instruction set: its instructions and their bytes, and a machine that runs
//! one instruction at a time over any data memory.
//!
//! The rules are those of the "Intel 64 and IA-32 Architectures Software Developer's Manual" for the
//! instructions named here. The definitions that the contracts cite stand in `specs/`:
//! `Instructions` has the bytes of each instruction, and `Machine` their effects.
#![tactic(auto)]

mod decoder;
mod execution;
mod instructions;
mod machine;
mod memory;
mod registers;

pub use decoder::decode;
pub use execution::step;
pub use instructions::{Arith, Bad, Branch, Ins, Rm};
pub use machine::{Code, Fault, Flags, State};
pub use memory::{Plain, Store, load_word, store_word};
pub use registers::{Reg, Regs};

#[cfg(test)]
mod tests;
