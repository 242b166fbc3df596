//! The last addresses of a run.
ghost use Rattle.std.specs.Prelude.{◌≡◌, ◌+◌, ◌<◌, ◌^◌, [], ◌∷◌, ◌++◌, length, IfOk, slice_get};
ghost use Rattle.circular_buffer.specs.Buffer.{keep_last};

use circular_buffer::HeapCircularBuffer;
use std::alloc::{AllocError, Global};
use std::marker::Model;

/// The addresses of the last instructions made. It is seen as its capacity and the addresses, the oldest first.
#[derive(Drop)]
pub struct Trace {
    ring: HeapCircularBuffer<u32>,
}

impl Model for Trace {
    ghost use Rattle.std.specs.Prelude.{List, ℕ, ◌<◌, ◌^◌};

    ghost Value = { ℕ × List ℕ };

    ghost view = { λ t. (t.ring.capacity, t.ring.items) };

    ghost invariant = { λ t. t.ring.capacity < 2 ^ 32 };
}

impl Trace {
    /// An empty trace that keeps the last `capacity` addresses.
    pub fn new(alloc: Global, capacity: u32) -> Result<Trace, AllocError>
        ensures { IfOk result (λ t. t ≡ (capacity, [])) }
    {
        Ok(Trace {
            ring: HeapCircularBuffer::with_capacity(alloc, capacity as usize)?,
        })
    }

    /// Adds an address. Where the trace is full, the oldest goes.
    pub(crate) fn note(&mut self, address: u32)
        ensures { self.new ≡ (self.old.0, keep_last self.old.0 (self.old.1 ++ address ∷ [])) }
    {
        self.ring.push_back(address);
    }

    /// How many addresses it has.
    pub fn len(&self) -> u32
        ensures { result ≡ length self.now.1 }
    {
        self.ring.len() as u32
    }

    /// An address by its number from 0, the oldest first. None exactly where there are no more than `i`.
    pub fn get(&self, i: u32) -> Option<u32>
        ensures { result ≡ slice_get self.now.1 i }
    {
        self.ring.get(i as usize).copied()
    }
}
