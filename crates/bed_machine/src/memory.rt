//! Data memory: bytes at 32-bit addresses, of which some are mapped.

ghost use Rattle.std.specs.Prelude.{◌≡◌, ℕ, Option, Some, is_some, OnOk, OnErr};
ghost use Rattle.std.specs.Bool.{OnTrue, OnFalse};
ghost use Rattle.bed_machine.specs.Memory.{IsMemory, word_at, put_byte, put_word};

use std::alloc::{AllocError, Global};
use std::collections::BTreeMap;

/// Bytes at addresses.
pub trait Store {
    /// The byte at each address that is mapped.
    ghost bytes: { Self → ℕ → Option ℕ };

    /// The byte at an address. None exactly where the address isn't mapped.
    fn get(&self, at: u32) -> Option<u8>
        ensures { result ≡ bytes self.now at };

    /// Replaces the byte at an address, and leaves all others. False exactly where the address isn't
    /// mapped; nothing changes then.
    fn set(&mut self, at: u32, byte: u8) -> bool
        ensures mapped { result ≡ is_some (bytes self.old at) }
        ensures set { OnTrue result (bytes self.new ≡ put_byte (bytes self.old) at byte) }
        ensures kept { OnFalse result (bytes self.new ≡ bytes self.old) };

    /// Addresses are 32-bit words, and contents bytes.
    ghost is_memory: { (d : Self) → IsMemory (bytes d) };
}

/// A store that keeps each mapped byte in a map.
#[derive(Drop)]
pub struct Plain {
    cells: BTreeMap<u32, u8>,
}

impl Plain {
    ghost use Rattle.bed_machine.specs.Memory.{empty};
    ghost use Rattle.bed_machine.specs.Plain.{plain_bytes};

    /// A store with nothing mapped. It takes no memory yet.
    pub fn new(alloc: Global) -> Plain
        ensures { plain_bytes result ≡ empty }
    {
        Plain {
            cells: BTreeMap::new(alloc),
        }
    }

    /// Maps an address, or replaces its byte. All other addresses stay, and after an error this one
    /// too.
    pub fn map(&mut self, at: u32, byte: u8) -> Result<(), AllocError>
        ensures ok { OnOk result (plain_bytes self.new ≡ put_byte (plain_bytes self.old) at byte) }
        ensures err { OnErr result (plain_bytes self.new ≡ plain_bytes self.old) }
    {
        match self.cells.insert(at, byte) {
            Ok(_) => Ok(()),
            Err(_) => Err(AllocError),
        }
    }
}

impl Store for Plain {
    ghost use Rattle.bed_machine.specs.Plain.{plain_bytes};
    ghost use Rattle.bed_machine.specs.PlainIsMemory.{plain_is_memory};

    ghost bytes = { plain_bytes };

    ghost is_memory = { plain_is_memory };

    fn get(&self, at: u32) -> Option<u8> {
        self.cells.get(&at).copied()
    }

    fn set(&mut self, at: u32, byte: u8) -> bool {
        match self.cells.get_mut(&at) {
            None => false,
            Some(cell) => {
                *cell = byte;
                true
            }
        }
    }
}

/// The word at an address, its lowest byte first. None exactly where one of its four bytes isn't mapped
/// or has no address.
pub fn load_word<D: Store>(mem: &D, at: u32) -> Option<u32>
    ensures { result ≡ word_at (D.bytes mem.now) at }
{
    if at > 4294967292 {
        return None;
    }
    let low = mem.get(at)?;
    let second = mem.get(at + 1)?;
    let third = mem.get(at + 2)?;
    let high = mem.get(at + 3)?;
    Some(
        u32::from(low)
            + 256 * u32::from(second)
            + 65536 * u32::from(third)
            + 16777216 * u32::from(high),
    )
}

/// Replaces the word at an address, its lowest byte first. False exactly where `load_word` answers None;
/// nothing changes then.
pub fn store_word<D: Store>(mem: &mut D, at: u32, word: u32) -> bool
    ensures mapped { result ≡ is_some (word_at (D.bytes mem.old) at) }
    ensures set { OnTrue result (D.bytes mem.new ≡ put_word (D.bytes mem.old) at word) }
    ensures kept { OnFalse result (D.bytes mem.new ≡ D.bytes mem.old) }
{
    if load_word(mem, at).is_none() {
        return false;
    }
    mem.set(at, (word % 256) as u8);
    mem.set(at + 1, (word / 256 % 256) as u8);
    mem.set(at + 2, (word / 65536 % 256) as u8);
    mem.set(at + 3, (word / 16777216) as u8);
    true
}
