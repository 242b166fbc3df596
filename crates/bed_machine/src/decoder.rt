//! From bytes to instructions.

ghost use Rattle.std.specs.Prelude.{◌≡◌, ℕ, ◌<◌, ◌≤◌, ◌↔◌, [], ◌∷◌, Ok, Err, IfOk, IfErr, length};
ghost use Rattle.bed_machine.specs.Instructions.{BeginsWith, IsTruncated, IsUndefined};
ghost use Rattle.bed_machine.specs.declared.instructions.Ins.{Ins};
ghost use Rattle.bed_machine.specs.Decoder.{register_of, first_word, one_byte, two_bytes, with_register, with_memory, with_operand, after_opcode, decoded};

use crate::instructions::{Arith, Bad, Branch, Ins, Rm};
use crate::registers::Reg;

/// An opcode, and what follows it.
#[derive(Clone, Copy)]
enum Opcode {
    /// A word follows.
    MovImm(Reg),
    /// A word follows.
    Jmp,
    /// A word follows.
    Jcc(Branch),
    /// A byte ModR/M follows.
    WithOperand(Operation),
}

/// An operation with a byte ModR/M.
#[derive(Clone, Copy)]
enum Operation {
    MovTo,
    MovFrom,
    MovByte,
    Movzx,
    Arith(Arith),
    Cmp,
    Imul,
    Immediate,
    JmpReg,
}

/// The instruction that begins at the first byte, and the number of its bytes, from 1 to 7. There is
/// at most one. `Truncated` exactly where the bytes are the beginning of an allowed instruction but not
/// all of it, no bytes at all among them, and `Undefined` exactly where neither holds.
pub fn decode(bytes: &[u8]) -> Result<(Ins, usize), Bad>
    ensures found { (i : Ins) (size : ℕ) → ((result ≡ Ok (i, size)) ↔ BeginsWith bytes.now i size) }
    ensures truncated { (result ≡ Err Bad.Truncated) ↔ IsTruncated bytes.now }
    ensures undefined { (result ≡ Err Bad.Undefined) ↔ IsUndefined bytes.now }
    ensures size { IfOk result (λ d. (0 < d.1) × (d.1 ≤ 7)) }
    ensures within { IfOk result (λ d. d.1 ≤ length bytes.now) }
{
    instruction(bytes)
}

/// The same, as the definitions of the decoder have it.
fn instruction(bytes: &[u8]) -> Result<(Ins, usize), Bad>
    ensures { result ≡ decoded bytes.now }
{
    let (first, rest) = next(bytes)?;
    if first != 0x0F {
        let Some(opcode) = opcode_of(first) else {
            return Err(Bad::Undefined);
        };
        return operands(opcode, rest);
    }
    let (second, rest) = next(rest)?;
    let Some(opcode) = escaped_opcode_of(second) else {
        return Err(Bad::Undefined);
    };
    operands(opcode, rest)
}

/// The first byte, and those after it.
fn next(bytes: &[u8]) -> Result<(u8, &[u8]), Bad>
    ensures ok { IfOk result (λ p. bytes.now ≡ p.0 ∷ p.1.now) }
    ensures err { IfErr result (λ e. (e ≡ Bad.Truncated) × (bytes.now ≡ [])) }
{
    match bytes {
        [] => Err(Bad::Truncated),
        [first, rest @ ..] => Ok((*first, rest)),
    }
}

/// The word in the first four bytes, the lowest first.
fn word(bytes: &[u8]) -> Result<u32, Bad>
    ensures { result ≡ first_word bytes.now }
{
    let (low, rest) = next(bytes)?;
    let (second, rest) = next(rest)?;
    let (third, rest) = next(rest)?;
    let (high, _) = next(rest)?;
    Ok(
        u32::from(low)
            + 256 * u32::from(second)
            + 65536 * u32::from(third)
            + 16777216 * u32::from(high),
    )
}

/// The register with a number below 8.
fn register(number: u8) -> Reg
    ensures { result ≡ register_of number }
{
    match number {
        0 => Reg::Eax,
        1 => Reg::Ecx,
        2 => Reg::Edx,
        3 => Reg::Ebx,
        4 => Reg::Esp,
        5 => Reg::Ebp,
        6 => Reg::Esi,
        _ => Reg::Edi,
    }
}

/// An opcode of one byte.
fn opcode_of(byte: u8) -> Option<Opcode>
    ensures { result ≡ one_byte byte }
{
    let operation = match byte {
        0xB8..=0xBF => return Some(Opcode::MovImm(register(byte - 0xB8))),
        0xE9 => return Some(Opcode::Jmp),
        0x89 => Operation::MovTo,
        0x8B => Operation::MovFrom,
        0x88 => Operation::MovByte,
        0x03 => Operation::Arith(Arith::Add),
        0x0B => Operation::Arith(Arith::Or),
        0x23 => Operation::Arith(Arith::And),
        0x2B => Operation::Arith(Arith::Sub),
        0x33 => Operation::Arith(Arith::Xor),
        0x3B => Operation::Cmp,
        0x81 => Operation::Immediate,
        0xFF => Operation::JmpReg,
        _ => return None,
    };
    Some(Opcode::WithOperand(operation))
}

/// An opcode of two bytes, the first of them 0F, by the second.
fn escaped_opcode_of(byte: u8) -> Option<Opcode>
    ensures { result ≡ two_bytes byte }
{
    let branch = match byte {
        0xB6 => return Some(Opcode::WithOperand(Operation::Movzx)),
        0xAF => return Some(Opcode::WithOperand(Operation::Imul)),
        0x82 => Branch::Below,
        0x83 => Branch::NotBelow,
        0x84 => Branch::Equal,
        0x85 => Branch::NotEqual,
        0x86 => Branch::NotAbove,
        0x87 => Branch::Above,
        _ => return None,
    };
    Some(Opcode::Jcc(branch))
}

/// The instruction with this opcode, by the bytes after the opcode.
fn operands(opcode: Opcode, bytes: &[u8]) -> Result<(Ins, usize), Bad>
    ensures { result ≡ after_opcode opcode bytes.now }
{
    match opcode {
        Opcode::MovImm(to) => {
            let imm = word(bytes)?;
            Ok((Ins::MovImm { to, imm }, 5))
        }
        Opcode::Jmp => {
            let rel = word(bytes)?;
            Ok((Ins::Jmp { rel }, 5))
        }
        Opcode::Jcc(branch) => {
            let rel = word(bytes)?;
            Ok((Ins::Jcc { branch, rel }, 6))
        }
        Opcode::WithOperand(operation) => {
            let (mod_rm, rest) = next(bytes)?;
            operand(operation, mod_rm, rest)
        }
    }
}

/// The instruction with this operation and byte ModR/M, by the bytes after that byte.
fn operand(operation: Operation, mod_rm: u8, bytes: &[u8]) -> Result<(Ins, usize), Bad>
    ensures { result ≡ with_operand operation mod_rm bytes.now }
{
    let mode = mod_rm / 64;
    let field = mod_rm / 8 % 8;
    let number = mod_rm % 8;
    if mode == 3 {
        register_operand(operation, field, register(number), bytes)
    } else if mode == 2 && number != 4 {
        memory_operand(operation, field, register(number), bytes)
    } else {
        Err(Bad::Undefined)
    }
}

/// With a register as the operand.
fn register_operand(
    operation: Operation,
    field: u8,
    rm: Reg,
    bytes: &[u8],
) -> Result<(Ins, usize), Bad>
    ensures { result ≡ with_register operation field rm bytes.now }
{
    let reg = register(field);
    match operation {
        Operation::MovTo => Ok((
            Ins::MovTo {
                rm: Rm::Reg(rm),
                from: reg,
            },
            2,
        )),
        Operation::MovFrom => Ok((
            Ins::MovFrom {
                to: reg,
                rm: Rm::Reg(rm),
            },
            2,
        )),
        Operation::Arith(op) => Ok((
            Ins::Arith {
                op,
                to: reg,
                from: rm,
            },
            2,
        )),
        Operation::Cmp => Ok((
            Ins::Cmp {
                left: reg,
                right: rm,
            },
            2,
        )),
        Operation::Imul => Ok((Ins::Imul { to: reg, from: rm }, 3)),
        Operation::Immediate if field == 0 || field == 5 => {
            let imm = word(bytes)?;
            Ok((
                Ins::Immediate {
                    subtract: field == 5,
                    to: rm,
                    imm,
                },
                6,
            ))
        }
        Operation::JmpReg if field == 4 => Ok((Ins::JmpReg(rm), 2)),
        _ => Err(Bad::Undefined),
    }
}

/// With a memory operand, its displacement first in the bytes.
fn memory_operand(
    operation: Operation,
    field: u8,
    base: Reg,
    bytes: &[u8],
) -> Result<(Ins, usize), Bad>
    ensures { result ≡ with_memory operation field base bytes.now }
{
    let reg = register(field);
    match operation {
        Operation::MovTo => {
            let disp = word(bytes)?;
            Ok((
                Ins::MovTo {
                    rm: Rm::Mem { base, disp },
                    from: reg,
                },
                6,
            ))
        }
        Operation::MovFrom => {
            let disp = word(bytes)?;
            Ok((
                Ins::MovFrom {
                    to: reg,
                    rm: Rm::Mem { base, disp },
                },
                6,
            ))
        }
        Operation::MovByte if field < 4 => {
            let disp = word(bytes)?;
            Ok((
                Ins::MovByte {
                    base,
                    disp,
                    from: reg,
                },
                6,
            ))
        }
        Operation::Movzx => {
            let disp = word(bytes)?;
            Ok((
                Ins::Movzx {
                    to: reg,
                    base,
                    disp,
                },
                7,
            ))
        }
        _ => Err(Bad::Undefined),
    }
}
