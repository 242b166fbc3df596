//! From instructions to bytes.
ghost use Rattle.std.specs.Prelude.{◌≡◌, ◌+◌, ◌≤◌, ◌<◌, [], ◌∷◌, ◌++◌, length, drop};
ghost use Rattle.bed_lang.specs.Numbers.{word_bytes};
ghost use Rattle.bed_machine.specs.Instructions.{IsAllowed, BeginsWith, number_of, register_form, memory_form, operand, arith_opcode, branch_opcode, row};

use bed_machine::{Arith, Branch, Ins, Reg, Rm};

/// Writes the bytes of an instruction to the front of `into`, and answers how many they are, from 2 to 7.
/// The bytes after them stay as they were. `decode` finds the instruction in what was written, whatever
/// follows.
///
/// The instruction is in an allowed form: no base is `Esp`, and `from` of `MovByte` is `Eax`, `Ecx`, `Edx`
/// or `Ebx`.
pub fn encode(i: &Ins, into: &mut [u8; 16]) -> usize
    requires { IsAllowed i.now }
    ensures size { result ≡ length (row i.now) }
    ensures short { result ≤ 7 }
    ensures bytes { into.new ≡ row i.now ++ drop result into.old }
    ensures decodes { BeginsWith into.new i.now result }
{
    put_row(*i, into)
}

/// The same, for every instruction.
fn put_row(i: Ins, into: &mut [u8; 16]) -> usize
    ensures size { result ≡ length (row i) }
    ensures short { result ≤ 7 }
    ensures bytes { into.new ≡ row i ++ drop result into.old }
{
    match i {
        Ins::MovImm { to, imm } => put_with_word(into, &[0xB8 + number(to)], imm),
        Ins::MovTo { rm, from } => put_with_operand(into, 0x89, number(from), rm),
        Ins::MovFrom { to, rm } => put_with_operand(into, 0x8B, number(to), rm),
        Ins::MovByte { base, disp, from } => {
            put_with_word(into, &[0x88, memory_operand(number(from), base)], disp)
        }
        Ins::Movzx { to, base, disp } => {
            put_with_word(into, &[0x0F, 0xB6, memory_operand(number(to), base)], disp)
        }
        Ins::Arith { op, to, from } => put(
            into,
            &[arith_opcode(op), register_operand(number(to), from)],
        ),
        Ins::Cmp { left, right } => put(into, &[0x3B, register_operand(number(left), right)]),
        Ins::Imul { to, from } => put(into, &[0x0F, 0xAF, register_operand(number(to), from)]),
        Ins::Immediate { subtract, to, imm } => {
            let extension = if subtract { 5 } else { 0 };
            put_with_word(into, &[0x81, register_operand(extension, to)], imm)
        }
        Ins::Jmp { rel } => put_with_word(into, &[0xE9], rel),
        Ins::Jcc { branch, rel } => put_with_word(into, &[0x0F, branch_opcode(branch)], rel),
        Ins::JmpReg(r) => put(into, &[0xFF, register_operand(4, r)]),
    }
}

/// Writes bytes to the front.
fn put(into: &mut [u8; 16], bytes: &[u8]) -> usize
    requires { length bytes.now ≤ 16 }
    ensures size { result ≡ length bytes.now }
    ensures bytes { into.new ≡ bytes.now ++ drop (length bytes.now) into.old }
{
    into[..bytes.len()].copy_from_slice(bytes);
    bytes.len()
}

/// Writes an opcode and a word to the front.
fn put_with_word(into: &mut [u8; 16], opcode: &[u8], word: u32) -> usize
    requires { length opcode.now ≤ 12 }
    ensures size { result ≡ length opcode.now + 4 }
    ensures bytes { into.new ≡ (opcode.now ++ word_bytes word) ++ drop (length opcode.now + 4) into.old }
{
    let [a, b, c, d] = word.to_le_bytes();
    let size = opcode.len();
    into[..size].copy_from_slice(opcode);
    into[size..size + 4].copy_from_slice(&[a, b, c, d]);
    size + 4
}

/// Writes an opcode of one byte and an operand to the front.
fn put_with_operand(into: &mut [u8; 16], opcode: u8, field: u8, rm: Rm) -> usize
    requires { field < 8 }
    ensures size { result ≡ length (opcode ∷ operand field rm) }
    ensures short { result ≤ 6 }
    ensures bytes { into.new ≡ (opcode ∷ operand field rm) ++ drop result into.old }
{
    match rm {
        Rm::Reg(r) => put(into, &[opcode, register_operand(field, r)]),
        Rm::Mem { base, disp } => put_with_word(into, &[opcode, memory_operand(field, base)], disp),
    }
}

/// The byte ModR/M of a register.
fn register_operand(field: u8, r: Reg) -> u8
    requires { field < 8 }
    ensures { result ≡ register_form field r }
{
    192 + 8 * field + number(r)
}

/// The byte ModR/M of the memory at a base plus a displacement.
fn memory_operand(field: u8, base: Reg) -> u8
    requires { field < 8 }
    ensures { result ≡ memory_form field base }
{
    128 + 8 * field + number(base)
}

/// The number of a register.
fn number(r: Reg) -> u8
    ensures value { result ≡ number_of r }
    ensures bound { result < 8 }
{
    match r {
        Reg::Eax => 0,
        Reg::Ecx => 1,
        Reg::Edx => 2,
        Reg::Ebx => 3,
        Reg::Esp => 4,
        Reg::Ebp => 5,
        Reg::Esi => 6,
        Reg::Edi => 7,
    }
}

fn arith_opcode(op: Arith) -> u8
    ensures { result ≡ arith_opcode op }
{
    match op {
        Arith::Add => 0x03,
        Arith::Or => 0x0B,
        Arith::And => 0x23,
        Arith::Sub => 0x2B,
        Arith::Xor => 0x33,
    }
}

/// The second byte of the opcode of a conditional jump.
fn branch_opcode(branch: Branch) -> u8
    ensures { result ≡ branch_opcode branch }
{
    match branch {
        Branch::Below => 0x82,
        Branch::NotBelow => 0x83,
        Branch::Equal => 0x84,
        Branch::NotEqual => 0x85,
        Branch::NotAbove => 0x86,
        Branch::Above => 0x87,
    }
}
