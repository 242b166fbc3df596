//! A host that answers the numbers of a list.
ghost use Rattle.std.specs.Prelude.{◌≡◌, ◌<◌, [], length, map, drop};
ghost use Rattle.std.proofs.Common.{arith};
ghost use Rattle.std.proofs.lemmas.List.{length-map};
ghost use Rattle.bed_io.specs.Host.{HostState};
ghost use Rattle.bed_hosts.specs.Log.{log_of};

use crate::log::Log;
use bed_io::Host;
use bed_lang::Text;
use std::alloc::{AllocError, Global};

/// A host that answers the numbers of a list in turn, and then 0.
#[derive(Drop)]
pub struct Feed {
    name: Text,
    arity: u32,
    answers: Vec<u32>,
    next: usize,
    log: Log,
}

impl Feed {
    /// A host with an empty log, where these answers wait, the first one next. It takes no memory.
    pub fn new(alloc: Global, name: Text, arity: u32, answers: Vec<u32>) -> Feed
        ensures { ⟦<Feed as Host>⟧.seen result ≡ record { name = name; arity = arity; log = []; waiting = answers.items } }
    {
        Feed {
            name,
            arity,
            answers,
            next: 0,
            log: Log::new(alloc),
        }
    }
}

impl Host for Feed {
    ghost seen = { λ s. record { name = s.name; arity = s.arity; log = log_of s.log.entries.items; waiting = drop s.next s.answers.items } };

    ghost log_fits = { λ s. Prim.grind (arith, length-map, s.log.fits) };

    fn name(&self) -> &[u8] {
        self.name.as_slice()
    }

    fn arity(&self) -> u32 {
        self.arity
    }

    fn call(&mut self, args: &[u32]) -> Result<u32, AllocError> {
        let answer = self.answers.get(self.next).copied().unwrap_or(0);
        self.log.push(args, answer)?;
        if self.next < self.answers.len() {
            self.next += 1;
        }
        Ok(answer)
    }

    fn entries(&self) -> u32 {
        self.log.len()
    }

    fn entry_argument(&self, entry: u32, argument: u32) -> Option<u32> {
        self.log.argument(entry, argument)
    }

    fn entry_answer(&self, entry: u32) -> Option<u32> {
        self.log.answer(entry)
    }
}
