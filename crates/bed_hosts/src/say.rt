//! A host that answers 0.
ghost use Rattle.std.specs.Prelude.{◌≡◌, ◌<◌, [], length, map};
ghost use Rattle.std.proofs.Common.{arith};
ghost use Rattle.std.proofs.lemmas.List.{length-map};
ghost use Rattle.bed_io.specs.Host.{HostState};
ghost use Rattle.bed_hosts.specs.Log.{log_of};

use crate::log::Log;
use bed_io::Host;
use bed_lang::Text;
use std::alloc::{AllocError, Global};

/// A host that answers 0 to each call.
#[derive(Drop)]
pub struct Say {
    name: Text,
    arity: u32,
    log: Log,
}

impl Say {
    /// A host with an empty log. It takes no memory.
    pub fn new(alloc: Global, name: Text, arity: u32) -> Say
        ensures { ⟦<Say as Host>⟧.seen result ≡ record { name = name; arity = arity; log = []; waiting = [] } }
    {
        Say {
            name,
            arity,
            log: Log::new(alloc),
        }
    }
}

impl Host for Say {
    ghost seen = { λ s. record { name = s.name; arity = s.arity; log = log_of s.log.entries.items; waiting = [] } };

    ghost log_fits = { λ s. Prim.grind (arith, length-map, s.log.fits) };

    fn name(&self) -> &[u8] {
        self.name.as_slice()
    }

    fn arity(&self) -> u32 {
        self.arity
    }

    fn call(&mut self, args: &[u32]) -> Result<u32, AllocError> {
        self.log.push(args, 0)?;
        Ok(0)
    }

    fn entries(&self) -> u32 {
        self.log.len()
    }

    fn entry_argument(&self, entry: u32, argument: u32) -> Option<u32> {
        self.log.argument(entry, argument)
    }

    fn entry_answer(&self, entry: u32) -> Option<u32> {
        self.log.answer(entry)
    }
}
