// A sink in memory, with room for so many bytes and a list of the puts that are to fail.
ghost use Rattle.std.specs.Prelude.{◌≡◌, ◌≤◌, ◌↔◌, [], true, length, vec_capacity, IfOk, OnErr, IsErr, IsTrue};
ghost use Rattle.bed_io.specs.Calls.{CallsState, after_call};
ghost use Rattle.bed_io.specs.Sink.{SinkState, Takes, faults_after_put};

use crate::calls::Calls;
use crate::counter::Counter;
use crate::{Failed, Sink};
use std::alloc::{AllocError, Global};

/// A sink in memory with room for so many bytes, and a list of the numbers of the puts that are to
/// fail, from 1 over all puts.
///
/// A put answers `Failed` exactly where its number is in the list or its bytes pass the room that
/// is left. Such a put takes nothing, and its fault is counted.
#[derive(Drop)]
pub struct MemSink {
    taken: Vec<u8>,
    room: usize,
    puts: Calls,
    faults: Counter,
    ghost within: { length taken.items ≤ room },
    ghost reserved: { room ≤ vec_capacity taken },
}

impl MemSink {
    ghost use Rattle.bed_io.specs.MemSink.{sink_of, puts_of, room_of};

    /// A sink that has taken nothing, with its room reserved.
    ///
    /// The error is want of memory.
    pub fn new(alloc: Global, room: usize, fails: Vec<u64>) -> Result<MemSink, AllocError>
        ensures empty { IfOk result (λ sink. sink_of sink ≡ record { tells = true; taken = []; faults = 0 }) }
        ensures room { IfOk result (λ sink. room_of sink ≡ room) }
        ensures puts { IfOk result (λ sink. puts_of sink ≡ record { made = 0; to_fail = fails.items }) }
    {
        let taken = Vec::with_capacity(alloc, room)?;
        Ok(MemSink {
            taken,
            room,
            puts: Calls::new(fails),
            faults: Counter::new(),
        })
    }

    /// The bytes taken, in their order.
    pub fn taken(&self) -> &[u8]
        ensures { result.now ≡ (sink_of self.now).taken }
    {
        &self.taken
    }
}

impl Sink for MemSink {
    ghost use Rattle.bed_io.specs.MemSink.{sink_of, puts_of, room_of, refuses};

    ghost seen = { sink_of };

    ghost count_fits = { λ sink. sink.faults.fits };

    fn put(&mut self, bytes: &[u8]) -> Result<(), Failed>
        ensures takes { Takes (sink_of self.old) (sink_of self.new) bytes.now result }
        ensures exactly { IsErr result ↔ IsTrue (refuses self.old bytes.now) }
        ensures nothing { OnErr result ((sink_of self.new).taken ≡ (sink_of self.old).taken) }
        ensures count { (sink_of self.new).faults ≡ faults_after_put (sink_of self.old).faults result }
        ensures puts { puts_of self.new ≡ after_call (puts_of self.old) }
        ensures room { room_of self.new ≡ room_of self.old }
    {
        if self.puts.next_fails() || self.room - self.taken.len() < bytes.len() {
            self.faults.raise();
            return Err(Failed);
        }
        match self.taken.extend_from_slice(bytes) {
            Ok(()) => Ok(()),
            Err(_) => unreachable!(),
        }
    }
}
