//! The instructions.

use crate::registers::Reg;

/// A register, or the memory at a base register plus a displacement, modulo 2^32.
#[derive(Clone, Copy, PartialEq, Eq)]
pub enum Rm {
    /// The register.
    Reg(Reg),
    /// The memory. No allowed instruction has `Esp` as its base.
    Mem { base: Reg, disp: u32 },
}

/// An operation on two registers.
#[derive(Clone, Copy, PartialEq, Eq)]
pub enum Arith {
    /// The sum, modulo 2^32.
    Add,
    /// Bit by bit: one of them.
    Or,
    /// Bit by bit: both of them.
    And,
    /// The first less the second, modulo 2^32.
    Sub,
    /// Bit by bit: exactly one of them.
    Xor,
}

/// The condition of a conditional jump, on two unsigned words that were compared.
#[derive(Clone, Copy, PartialEq, Eq)]
pub enum Branch {
    /// JB: the first is below the second.
    Below,
    /// JAE: the first isn't below the second.
    NotBelow,
    /// JE: they are equal.
    Equal,
    /// JNE: they differ.
    NotEqual,
    /// JBE: the first is below the second or equal to it.
    NotAbove,
    /// JA: the first is above the second.
    Above,
}

/// An instruction. It is in an allowed form where no base is `Esp` and `from` of `MovByte` is `Eax`,
/// `Ecx`, `Edx` or `Ebx`.
#[derive(Clone, Copy, PartialEq, Eq)]
pub enum Ins {
    /// MOV r, imm32.
    MovImm { to: Reg, imm: u32 },
    /// MOV r/m32, r32.
    MovTo { rm: Rm, from: Reg },
    /// MOV r32, r/m32.
    MovFrom { to: Reg, rm: Rm },
    /// MOV m8, r8: the low byte of `from` goes to memory.
    MovByte { base: Reg, disp: u32, from: Reg },
    /// MOVZX r32, m8: a byte of memory, with zeros above it.
    Movzx { to: Reg, base: Reg, disp: u32 },
    /// ADD, OR, AND, SUB or XOR of two registers.
    Arith { op: Arith, to: Reg, from: Reg },
    /// CMP of two registers: it sets the flags alone.
    Cmp { left: Reg, right: Reg },
    /// IMUL r32, r32: the low 32 bits of the product.
    Imul { to: Reg, from: Reg },
    /// ADD r32, imm32, or SUB r32, imm32 where `subtract` is true.
    Immediate { subtract: bool, to: Reg, imm: u32 },
    /// JMP rel32: `rel` is counted from the next instruction, modulo 2^32.
    Jmp { rel: u32 },
    /// A conditional jump by rel32.
    Jcc { branch: Branch, rel: u32 },
    /// JMP r32: the register holds the address.
    JmpReg(Reg),
}

/// Why no instruction was decoded.
#[derive(Clone, Copy, PartialEq, Eq)]
pub enum Bad {
    /// The bytes are the beginning of an allowed instruction, and end too early.
    Truncated,
    /// No allowed instruction begins with these bytes, nor do they begin with one.
    Undefined,
}
