//! The log of a host.
ghost use Rattle.std.specs.Prelude.{◌≡◌, ◌<◌, ◌^◌, [], ◌∷◌, ◌++◌, length, OnOk, OnErr, slice_get, option_and_then};
ghost use Rattle.std.specs.Option.{option_map};
ghost use Rattle.bed_hosts.specs.Log.{log_of};

use crate::entry::Entry;
use std::alloc::{AllocError, Global};

/// The calls made, in their order.
#[derive(Drop)]
pub struct Log {
    alloc: Global,
    pub entries: Vec<Entry>,
    ghost fits: { length entries.items < 2 ^ 32 },
}

impl Log {
    /// No call.
    pub fn new(alloc: Global) -> Log
        ensures { log_of result.entries.items ≡ [] }
    {
        Log {
            alloc,
            entries: Vec::new(alloc),
        }
    }

    /// Appends a call. After an error nothing has changed.
    pub fn push(&mut self, args: &[u32], answer: u32) -> Result<(), AllocError>
        requires { length self.old.entries.items < 4294967295 }
        ensures ok { OnOk result (log_of self.new.entries.items ≡ log_of self.old.entries.items ++ (args.now, answer) ∷ []) }
        ensures err { OnErr result (self.new.entries.items ≡ self.old.entries.items) }
    {
        let args = Vec::from_slice(self.alloc, args)?;
        self.entries.push(Entry { args, answer })?;
        Ok(())
    }

    /// How many calls there are.
    pub fn len(&self) -> u32
        ensures { result ≡ length (log_of self.now.entries.items) }
    {
        self.entries.len() as u32
    }

    /// One argument of one call.
    pub fn argument(&self, entry: u32, argument: u32) -> Option<u32>
        ensures { result ≡ option_and_then (λ call. slice_get call.0 argument) (slice_get (log_of self.now.entries.items) entry) }
    {
        let entry = self.entries.get(entry as usize)?;
        entry.args.get(argument as usize).copied()
    }

    /// The answer of one call.
    pub fn answer(&self, entry: u32) -> Option<u32>
        ensures { result ≡ option_map (λ call. call.1) (slice_get (log_of self.now.entries.items) entry) }
    {
        Some(self.entries.get(entry as usize)?.answer)
    }
}
