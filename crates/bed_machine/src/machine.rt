//! The machine's code, its state and its faults.

ghost use Rattle.std.specs.Prelude.{◌≡◌, ◌+◌, ◌<◌, ◌≤◌, ◌↔◌, IsNone, IfNone, IfSome, length, vec_len};
ghost use Rattle.bed_machine.specs.MachineCode.{IsInCode, bytes_from};

use crate::memory::Store;
use crate::registers::Regs;
use std::marker::Model;

/// Bytes of code at an address. The last of them has an address too.
#[derive(Drop)]
pub struct Code {
    base: u32,
    bytes: Vec<u8>,
}

impl Model for Code {
    ghost use Rattle.std.specs.Prelude.{◌+◌, ◌≤◌, length};
    ghost use Rattle.bed_machine.specs.MachineCode.{MachineCode};

    ghost Value = { MachineCode };

    ghost view = { λ c. record { base = c.base; bytes = c.bytes.items } };

    ghost invariant = { λ c. c.base + length c.bytes.items ≤ 4294967296 };
}

impl Code {
    /// The bytes, the first of them at the address `base`. None exactly where `base` plus the length
    /// passes 2^32.
    pub fn new(base: u32, bytes: Vec<u8>) -> Option<Code>
        ensures passes { IsNone result ↔ (4294967296 < base + vec_len bytes) }
        ensures code { IfSome result (λ c. c ≡ record { base = base; bytes = bytes.items }) }
    {
        if bytes.len() as u64 + u64::from(base) > 4294967296 {
            return None;
        }
        Some(Code { base, bytes })
    }

    /// The address of the first byte.
    pub fn base(&self) -> u32
        ensures { result ≡ self.now.base }
    {
        self.base
    }

    /// The bytes.
    pub fn bytes(&self) -> &[u8]
        ensures bytes { result.now ≡ self.now.bytes }
        ensures fits { self.now.base + length self.now.bytes ≤ 4294967296 }
    {
        self.bytes.as_slice()
    }

    /// The bytes from an address on. None where it isn't the address of one of them.
    pub(crate) fn bytes_from(&self, at: u32) -> Option<&[u8]>
        ensures inside { IfSome result (λ bytes. IsInCode self.now at × (bytes.now ≡ bytes_from self.now at)) }
        ensures outside { IfNone result (IsInCode self.now at → ⊥) }
    {
        if at < self.base {
            return None;
        }
        let offset = (at - self.base) as usize;
        if offset >= self.bytes.len() {
            return None;
        }
        Some(&self.bytes.as_slice()[offset..])
    }
}

/// What is known of the flags.
#[derive(Clone, Copy, PartialEq, Eq)]
pub enum Flags {
    /// Nothing, as after arithmetic.
    Unknown,
    /// The carry flag and the zero flag, as after a comparison.
    Known { carry: bool, zero: bool },
}

/// A state of the machine over a data memory.
#[derive(Drop)]
pub struct State<D: Store> {
    /// The general registers.
    pub regs: Regs,
    /// The address of the next instruction.
    pub eip: u32,
    /// What is known of the flags.
    pub flags: Flags,
    /// Data memory. The code isn't in it.
    pub mem: D,
}

/// Why an instruction wasn't made.
#[derive(Clone, Copy, PartialEq, Eq)]
pub enum Fault {
    /// No allowed instruction begins at this address, that of the next instruction.
    Undefined(u32),
    /// The conditional jump at this address asks for flags that are unknown.
    FlagsUnknown(u32),
    /// The next instruction's address, where it isn't in the code, or the first address of a data
    /// access that isn't mapped as a whole.
    Unmapped(u32),
}
