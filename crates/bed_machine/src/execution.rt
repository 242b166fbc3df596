//! One instruction at a time.

ghost use Rattle.std.specs.Prelude.{◌≡◌, ◌*◌, OnErr};
ghost use Rattle.bed_lang.specs.Numbers.{wrap};
ghost use Rattle.bed_machine.specs.Machine.{seen, address_of, compared, effect, on_branch, outcome, IsState, IsStep, is_taken, result_of, with_register, with_result};

use crate::decoder::decode;
use crate::instructions::{Arith, Branch, Ins, Rm};
use crate::machine::{Code, Fault, Flags, State};
use crate::memory::{Store, load_word, store_word};
use crate::registers::Reg;

/// Makes the instruction at `eip`. After a fault nothing has changed: registers, `eip`, flags and each
/// byte of memory are as they were. The faults, in this order:
///
/// - `Unmapped(eip)` where `eip` isn't in the code;
/// - `Undefined(eip)` where no allowed instruction begins there;
/// - `FlagsUnknown(eip)` at a conditional jump, where the flags are unknown;
/// - `Unmapped` with the first address of an access to data memory, where that isn't mapped as a whole.
pub fn step<D: Store>(code: &Code, s: &mut State<D>) -> Result<(), Fault>
    ensures step { IsStep code.now (seen D.bytes s.old) (outcome result (seen D.bytes s.new)) }
    ensures kept { OnErr result (seen D.bytes s.new ≡ seen D.bytes s.old) }

    // Registers and `eip` stay 32-bit words, and memory bytes at such addresses.
    ensures state { IsState (seen D.bytes s.old) → IsState (seen D.bytes s.new) }
{
    let Some(bytes) = code.bytes_from(s.eip) else {
        return Err(Fault::Unmapped(s.eip));
    };
    match decode(bytes) {
        Err(_) => Err(Fault::Undefined(s.eip)),
        Ok((ins, size)) => execute(ins, s.eip.wrapping_add(size as u32), s),
    }
}

/// The effect of an instruction; `next` is the address after it.
fn execute<D: Store>(ins: Ins, next: u32, s: &mut State<D>) -> Result<(), Fault>
    ensures effect { outcome result (seen D.bytes s.new) ≡ effect ins next (seen D.bytes s.old) }
    ensures kept { OnErr result (seen D.bytes s.new ≡ seen D.bytes s.old) }
{
    match ins {
        Ins::MovTo { rm, from } => return move_to(rm, from, next, s),
        Ins::MovFrom { to, rm } => return move_from(to, rm, next, s),
        Ins::MovByte { base, disp, from } => return move_byte(base, disp, from, next, s),
        Ins::Movzx { to, base, disp } => return move_extended(to, base, disp, next, s),
        Ins::Jcc { branch, rel } => return jump_if(branch, next.wrapping_add(rel), next, s),
        Ins::MovImm { to, imm } => s.set_register(to, imm, next),
        Ins::Arith { op, to, from } => {
            let value = apply(op, s.regs.get(to), s.regs.get(from));
            s.set_result(to, value, next);
        }
        Ins::Cmp { left, right } => {
            s.flags = compare(s.regs.get(left), s.regs.get(right));
            s.eip = next;
        }
        Ins::Imul { to, from } => {
            let value = s.regs.get(to).wrapping_mul(s.regs.get(from));
            s.set_result(to, value, next);
        }
        Ins::Immediate { subtract, to, imm } => {
            let op = if subtract { Arith::Sub } else { Arith::Add };
            let value = apply(op, s.regs.get(to), imm);
            s.set_result(to, value, next);
        }
        Ins::Jmp { rel } => s.eip = next.wrapping_add(rel),
        Ins::JmpReg(to) => s.eip = s.regs.get(to),
    }
    Ok(())
}

impl<D: Store> State<D> {
    /// The address of a memory operand.
    fn address(&self, base: Reg, disp: u32) -> u32
        ensures { result ≡ address_of (seen D.bytes self.now) base disp }
    {
        self.regs.get(base).wrapping_add(disp)
    }

    /// Sets a register, and goes on at `next`.
    fn set_register(&mut self, to: Reg, value: u32, next: u32)
        ensures { seen D.bytes self.new ≡ with_register (seen D.bytes self.old) next to value }
    {
        self.regs.set(to, value);
        self.eip = next;
    }

    /// The same after arithmetic, which leaves the flags unknown.
    fn set_result(&mut self, to: Reg, value: u32, next: u32)
        ensures { seen D.bytes self.new ≡ with_result (seen D.bytes self.old) next to value }
    {
        self.regs.set(to, value);
        self.eip = next;
        self.flags = Flags::Unknown;
    }
}

/// MOV to a register or memory.
fn move_to<D: Store>(rm: Rm, from: Reg, next: u32, s: &mut State<D>) -> Result<(), Fault>
    ensures effect { outcome result (seen D.bytes s.new) ≡ effect (Ins.MovTo rm from) next (seen D.bytes s.old) }
    ensures kept { OnErr result (seen D.bytes s.new ≡ seen D.bytes s.old) }
{
    let value = s.regs.get(from);
    match rm {
        Rm::Reg(to) => s.set_register(to, value, next),
        Rm::Mem { base, disp } => {
            let at = s.address(base, disp);
            if !store_word(&mut s.mem, at, value) {
                return Err(Fault::Unmapped(at));
            }
            s.eip = next;
        }
    }
    Ok(())
}

/// MOV from a register or memory.
fn move_from<D: Store>(to: Reg, rm: Rm, next: u32, s: &mut State<D>) -> Result<(), Fault>
    ensures effect { outcome result (seen D.bytes s.new) ≡ effect (Ins.MovFrom to rm) next (seen D.bytes s.old) }
    ensures kept { OnErr result (seen D.bytes s.new ≡ seen D.bytes s.old) }
{
    match rm {
        Rm::Reg(from) => {
            let value = s.regs.get(from);
            s.set_register(to, value, next);
        }
        Rm::Mem { base, disp } => {
            let at = s.address(base, disp);
            let Some(value) = load_word(&s.mem, at) else {
                return Err(Fault::Unmapped(at));
            };
            s.set_register(to, value, next);
        }
    }
    Ok(())
}

/// MOV of a low byte to memory.
fn move_byte<D: Store>(
    base: Reg,
    disp: u32,
    from: Reg,
    next: u32,
    s: &mut State<D>,
) -> Result<(), Fault>
    ensures effect { outcome result (seen D.bytes s.new) ≡ effect (Ins.MovByte base disp from) next (seen D.bytes s.old) }
    ensures kept { OnErr result (seen D.bytes s.new ≡ seen D.bytes s.old) }
{
    let at = s.address(base, disp);
    let low = (s.regs.get(from) % 256) as u8;
    if !s.mem.set(at, low) {
        return Err(Fault::Unmapped(at));
    }
    s.eip = next;
    Ok(())
}

/// MOVZX from memory.
fn move_extended<D: Store>(
    to: Reg,
    base: Reg,
    disp: u32,
    next: u32,
    s: &mut State<D>,
) -> Result<(), Fault>
    ensures effect { outcome result (seen D.bytes s.new) ≡ effect (Ins.Movzx to base disp) next (seen D.bytes s.old) }
    ensures kept { OnErr result (seen D.bytes s.new ≡ seen D.bytes s.old) }
{
    let at = s.address(base, disp);
    let Some(byte) = s.mem.get(at) else {
        return Err(Fault::Unmapped(at));
    };
    s.set_register(to, u32::from(byte), next);
    Ok(())
}

/// A conditional jump to `target`.
fn jump_if<D: Store>(branch: Branch, target: u32, next: u32, s: &mut State<D>) -> Result<(), Fault>
    ensures effect { outcome result (seen D.bytes s.new) ≡ on_branch (is_taken branch s.old.flags) (seen D.bytes s.old) next target }
    ensures kept { OnErr result (seen D.bytes s.new ≡ seen D.bytes s.old) }
{
    match taken(branch, s.flags) {
        None => return Err(Fault::FlagsUnknown(s.eip)),
        Some(true) => s.eip = target,
        Some(false) => s.eip = next,
    }
    Ok(())
}

/// Whether a conditional jump is taken. None where the flags are unknown.
fn taken(branch: Branch, flags: Flags) -> Option<bool>
    ensures { result ≡ is_taken branch flags }
{
    let Flags::Known { carry, zero } = flags else {
        return None;
    };
    Some(match branch {
        Branch::Below => carry,
        Branch::NotBelow => !carry,
        Branch::Equal => zero,
        Branch::NotEqual => !zero,
        Branch::NotAbove => carry || zero,
        Branch::Above => !(carry || zero),
    })
}

/// The flags after a comparison.
fn compare(left: u32, right: u32) -> Flags
    ensures { result ≡ compared left right }
{
    Flags::Known {
        carry: left < right,
        zero: left == right,
    }
}

/// The result of an operation on two words.
fn apply(op: Arith, left: u32, right: u32) -> u32
    ensures { result ≡ result_of op left right }
{
    match op {
        Arith::Add => left.wrapping_add(right),
        Arith::Or => left | right,
        Arith::And => left & right,
        Arith::Sub => left.wrapping_sub(right),
        Arith::Xor => left ^ right,
    }
}
