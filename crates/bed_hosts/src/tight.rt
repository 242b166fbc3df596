//! A host that refuses one of its calls.
ghost use Rattle.std.specs.Prelude.{◌≡◌, ◌<◌, [], length, map};
ghost use Rattle.std.proofs.Common.{arith};
ghost use Rattle.std.proofs.lemmas.List.{length-map};
ghost use Rattle.bed_io.specs.Host.{HostState};
ghost use Rattle.bed_hosts.specs.Log.{log_of};

use crate::log::Log;
use bed_io::Host;
use bed_lang::Text;
use std::alloc::{AllocError, Global};

/// A host that answers 0, and want of memory to one of its calls: for trials of what follows then.
#[derive(Drop)]
pub struct Tight {
    name: Text,
    arity: u32,
    /// How many calls are left up to the one that is refused, with it; 0 where none is.
    left: u32,
    log: Log,
}

impl Tight {
    /// A host with an empty log, whose call number `refused`, from 1, is refused. It takes no memory.
    pub fn new(alloc: Global, name: Text, arity: u32, refused: u32) -> Tight
        ensures { ⟦<Tight as Host>⟧.seen result ≡ record { name = name; arity = arity; log = []; waiting = [] } }
    {
        Tight {
            name,
            arity,
            left: refused,
            log: Log::new(alloc),
        }
    }
}

impl Host for Tight {
    ghost seen = { λ s. record { name = s.name; arity = s.arity; log = log_of s.log.entries.items; waiting = [] } };

    ghost log_fits = { λ s. Prim.grind (arith, length-map, s.log.fits) };

    fn name(&self) -> &[u8] {
        self.name.as_slice()
    }

    fn arity(&self) -> u32 {
        self.arity
    }

    fn call(&mut self, args: &[u32]) -> Result<u32, AllocError> {
        let refused = self.left == 1;
        self.left = self.left.saturating_sub(1);
        if refused {
            return Err(AllocError);
        }
        self.log.push(args, 0)?;
        Ok(0)
    }

    fn entries(&self) -> u32 {
        self.log.len()
    }

    fn entry_argument(&self, entry: u32, argument: u32) -> Option<u32> {
        self.log.argument(entry, argument)
    }

    fn entry_answer(&self, entry: u32) -> Option<u32> {
        self.log.answer(entry)
    }
}
