//! The texts of instructions.
ghost use Rattle.std.specs.Prelude.{◌≡◌, ◌++◌, OnOk, codes};
ghost use Rattle.bed_disasm.specs.Text.{register_text, low_text, memory_text, operand_text, arith_text, branch_text, number_text, two, one, instruction_text};

use crate::numbers::push_number;
use bed_machine::{Arith, Branch, Ins, Reg, Rm};
use std::alloc::AllocError;

/// Appends the text of an instruction; `next` is the address after it.
pub fn push_instruction(out: &mut Vec<u8>, ins: Ins, next: u32) -> Result<(), AllocError>
    ensures { OnOk result (out.new.items ≡ out.old.items ++ instruction_text next ins) }
{
    match ins {
        Ins::MovImm { to, imm } => with_number(out, b"mov", to, imm),
        Ins::MovTo { rm, from } => to_operand(out, rm, from),
        Ins::MovFrom { to, rm } => from_operand(out, to, rm),
        Ins::MovByte { base, disp, from } => byte_to_memory(out, base, disp, from),
        Ins::Movzx { to, base, disp } => byte_from_memory(out, to, base, disp),
        Ins::Arith { op, to, from } => with_register(out, arith(op), to, from),
        Ins::Cmp { left, right } => with_register(out, b"cmp", left, right),
        Ins::Imul { to, from } => with_register(out, b"imul", to, from),
        Ins::Immediate { subtract, to, imm } => {
            let mnemonic = if subtract { b"sub" } else { b"add" };
            with_number(out, mnemonic, to, imm)
        }
        Ins::Jmp { rel } => jump(out, b"jmp", next.wrapping_add(rel)),
        Ins::Jcc { branch, rel } => jump(out, condition(branch), next.wrapping_add(rel)),
        Ins::JmpReg(r) => jump_to_register(out, r),
    }
}

/// Appends a mnemonic, a register and what parts it from a second operand.
fn push_first(out: &mut Vec<u8>, mnemonic: &[u8], to: Reg) -> Result<(), AllocError>
    ensures { OnOk result (out.new.items ≡ out.old.items ++ (mnemonic.now ++ (codes " " ++ (register_text to ++ codes ", ")))) }
{
    out.extend_from_slice(mnemonic)?;
    out.extend_from_slice(b" ")?;
    out.extend_from_slice(register(to))?;
    out.extend_from_slice(b", ")
}

fn with_number(out: &mut Vec<u8>, mnemonic: &[u8], to: Reg, number: u32) -> Result<(), AllocError>
    ensures { OnOk result (out.new.items ≡ out.old.items ++ two mnemonic.now (register_text to) (number_text number)) }
{
    push_first(out, mnemonic, to)?;
    push_number(out, number)
}

fn with_register(out: &mut Vec<u8>, mnemonic: &[u8], to: Reg, from: Reg) -> Result<(), AllocError>
    ensures { OnOk result (out.new.items ≡ out.old.items ++ two mnemonic.now (register_text to) (register_text from)) }
{
    push_first(out, mnemonic, to)?;
    out.extend_from_slice(register(from))
}

fn to_operand(out: &mut Vec<u8>, rm: Rm, from: Reg) -> Result<(), AllocError>
    ensures { OnOk result (out.new.items ≡ out.old.items ++ two (codes "mov") (operand_text rm) (register_text from)) }
{
    out.extend_from_slice(b"mov ")?;
    push_operand(out, rm)?;
    out.extend_from_slice(b", ")?;
    out.extend_from_slice(register(from))
}

fn from_operand(out: &mut Vec<u8>, to: Reg, rm: Rm) -> Result<(), AllocError>
    ensures { OnOk result (out.new.items ≡ out.old.items ++ two (codes "mov") (register_text to) (operand_text rm)) }
{
    push_first(out, b"mov", to)?;
    push_operand(out, rm)
}

fn byte_to_memory(out: &mut Vec<u8>, base: Reg, disp: u32, from: Reg) -> Result<(), AllocError>
    ensures { OnOk result (out.new.items ≡ out.old.items ++ two (codes "mov byte") (memory_text base disp) (low_text from)) }
{
    out.extend_from_slice(b"mov byte ")?;
    push_memory(out, base, disp)?;
    out.extend_from_slice(b", ")?;
    out.extend_from_slice(low_register(from))
}

fn byte_from_memory(out: &mut Vec<u8>, to: Reg, base: Reg, disp: u32) -> Result<(), AllocError>
    ensures { OnOk result (out.new.items ≡ out.old.items ++ two (codes "movzx") (register_text to) (codes "byte " ++ memory_text base disp)) }
{
    push_first(out, b"movzx", to)?;
    out.extend_from_slice(b"byte ")?;
    push_memory(out, base, disp)
}

fn jump(out: &mut Vec<u8>, mnemonic: &[u8], target: u32) -> Result<(), AllocError>
    ensures { OnOk result (out.new.items ≡ out.old.items ++ one mnemonic.now (number_text target)) }
{
    out.extend_from_slice(mnemonic)?;
    out.extend_from_slice(b" ")?;
    push_number(out, target)
}

fn jump_to_register(out: &mut Vec<u8>, r: Reg) -> Result<(), AllocError>
    ensures { OnOk result (out.new.items ≡ out.old.items ++ one (codes "jmp") (register_text r)) }
{
    out.extend_from_slice(b"jmp ")?;
    out.extend_from_slice(register(r))
}

fn push_operand(out: &mut Vec<u8>, rm: Rm) -> Result<(), AllocError>
    ensures { OnOk result (out.new.items ≡ out.old.items ++ operand_text rm) }
{
    match rm {
        Rm::Reg(r) => out.extend_from_slice(register(r)),
        Rm::Mem { base, disp } => push_memory(out, base, disp),
    }
}

#[tactic(auto, unfolding(crate::specs::Text::memory_text))]
fn push_memory(out: &mut Vec<u8>, base: Reg, disp: u32) -> Result<(), AllocError>
    ensures { OnOk result (out.new.items ≡ out.old.items ++ memory_text base disp) }
{
    out.extend_from_slice(b"[")?;
    out.extend_from_slice(register(base))?;
    out.extend_from_slice(b"+")?;
    push_number(out, disp)?;
    out.extend_from_slice(b"]")
}

fn register(r: Reg) -> &'static [u8]
    ensures { result.now ≡ register_text r }
{
    match r {
        Reg::Eax => b"eax",
        Reg::Ecx => b"ecx",
        Reg::Edx => b"edx",
        Reg::Ebx => b"ebx",
        Reg::Esp => b"esp",
        Reg::Ebp => b"ebp",
        Reg::Esi => b"esi",
        Reg::Edi => b"edi",
    }
}

/// The register of a byte by its number. The last four stand in no instruction that decodes.
fn low_register(r: Reg) -> &'static [u8]
    ensures { result.now ≡ low_text r }
{
    match r {
        Reg::Eax => b"al",
        Reg::Ecx => b"cl",
        Reg::Edx => b"dl",
        Reg::Ebx => b"bl",
        Reg::Esp => b"ah",
        Reg::Ebp => b"ch",
        Reg::Esi => b"dh",
        Reg::Edi => b"bh",
    }
}

fn arith(op: Arith) -> &'static [u8]
    ensures { result.now ≡ arith_text op }
{
    match op {
        Arith::Add => b"add",
        Arith::Or => b"or",
        Arith::And => b"and",
        Arith::Sub => b"sub",
        Arith::Xor => b"xor",
    }
}

fn condition(branch: Branch) -> &'static [u8]
    ensures { result.now ≡ branch_text branch }
{
    match branch {
        Branch::Below => b"jb",
        Branch::NotBelow => b"jae",
        Branch::Equal => b"je",
        Branch::NotEqual => b"jne",
        Branch::NotAbove => b"jbe",
        Branch::Above => b"ja",
    }
}
