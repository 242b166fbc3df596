//! Blocks and their instructions.

use bed_lang::{List, Name, Op, Rel};
use bed_machine::Reg;

/// A register for an operand.
#[derive(Clone, Copy, PartialEq, Eq)]
pub enum Scratch {
    /// ECX.
    First,
    /// EDX.
    Second,
}

/// What is brought into a register.
#[derive(Drop)]
pub enum Value {
    /// The number.
    Number(u32),
    /// The word at `sp` plus the displacement, modulo 2^32.
    Slot(u32),
    /// The address of the function or import.
    Function(Name),
}

/// An instruction of a block. Sums and differences of addresses are modulo 2^32.
#[derive(Drop)]
pub enum Inst {
    /// The word at `sp` becomes `rp`.
    SaveReturn,
    /// The register becomes the value.
    Fetch { into: Scratch, value: Value },
    /// The word at `sp + disp` becomes the first operand.
    Keep { disp: u32 },
    /// The word at `sp + disp` becomes `rv`.
    KeepAnswer { disp: u32 },
    /// The first operand becomes the result of the operation on both.
    Apply(Op),
    /// The first operand becomes the word at it plus `disp`.
    LoadWord { disp: u32 },
    /// The first operand becomes the byte at it plus `disp`.
    LoadByte { disp: u32 },
    /// The word at the first operand plus `disp` becomes the second.
    StoreWord { disp: u32 },
    /// The byte at the first operand plus `disp` becomes the low byte of the second.
    StoreByte { disp: u32 },
    /// `sp` grows.
    RaiseSp(u32),
    /// `sp` shrinks.
    LowerSp(u32),
    /// `rp` becomes the address of the block with this label.
    ReturnTo(u32),
    /// `rv` becomes the first operand.
    SetAnswer,
    /// `rp` becomes the word at `sp`.
    TakeReturn,
}

/// How control goes on after a block.
#[derive(Clone, Copy, PartialEq, Eq)]
pub enum Jump {
    /// To the block with this label, by a jump.
    Goto(u32),
    /// To the block with this label, which stands right after this one.
    Fall(u32),
    /// The operands are compared without sign: to `yes`, which stands right after this block, where
    /// the comparison is true, and else to `no`.
    Test { rel: Rel, yes: u32, no: u32 },
    /// To the address in a register: ESI to return, EDX to call.
    Register(Reg),
}

/// Instructions in a row, with a label and a jump at their end.
#[derive(Drop)]
pub struct Block {
    pub label: u32,
    pub insts: List<Inst>,
    pub jump: Jump,
}
