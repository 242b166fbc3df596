//! Blocks: code with labels in place of addresses, on a few registers, and the machine that runs it.
//!
//! Macros are proved over blocks, and only the layout knows that blocks become bytes. So each
//! instruction of a block is one instruction of the machine, with the registers that it uses fixed:
//! `sp` is EBP, `rp` ESI, `rv` EAX, and the two operands stand in ECX and EDX. The definitions that the
//! contracts cite stand in `specs/`: `BlockMachine` has what each instruction does, `Bytes` its bytes and
//! how blocks are laid out, and `Fit` which blocks may stand together.
#![tactic(auto)]

mod blocks;
mod laws;
mod states;
mod stepping;

pub use blocks::{Block, Inst, Jump, Scratch, Value};
pub use laws::bytes;
pub use states::{IlFault, IlMove, IlState};
pub use stepping::il_step;
