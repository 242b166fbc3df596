//! States of the block machine, and what one turn of it tells.

use bed_machine::Store;

/// A state of the block machine over a data memory.
#[derive(Drop)]
pub struct IlState<D: Store> {
    /// The address of the frame.
    pub sp: u32,
    /// The return address.
    pub rp: u32,
    /// The answer of a function.
    pub rv: u32,
    /// The first operand.
    pub first: u32,
    /// The second operand.
    pub second: u32,
    /// The label of the block in which control is.
    pub label: u32,
    /// The number of the block's next instruction, from 0; behind the last stands the jump.
    pub next: u32,
    /// Data memory.
    pub mem: D,
}

/// What a turn did.
#[derive(Clone, Copy, PartialEq, Eq)]
pub enum IlMove {
    /// Control is still in the blocks.
    Within,
    /// A jump by register to this address; the state is that before the jump.
    Leaves(u32),
}

/// Why a turn wasn't made.
#[derive(Clone, Copy, PartialEq, Eq)]
pub enum IlFault {
    /// The access to memory at this address isn't mapped as a whole.
    Unmapped(u32),
    /// No block has this label.
    NoBlock(u32),
}
