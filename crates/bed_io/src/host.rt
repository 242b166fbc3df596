// Hosts: functions of the outside, each with a log of its calls.
ghost use Rattle.std.specs.Prelude.{◌≡◌, ◌<◌, ◌^◌, length, IfOk, OnOk, OnErr};
ghost use Rattle.bed_io.specs.Host.{HostState, next_answer, called, argument_at, answer_at};

use std::alloc::AllocError;

/// A function of the outside that a program may call, with a log of its calls.
///
/// It is seen as a name, an arity, a log (a list of arguments with an answer, in the order of the
/// calls) and a list of waiting answers. Words are u32s, and a log has at most 4294967295 entries.
pub trait Host: Drop {
    ghost seen: { Self → HostState };

    /// The bytes of the name.
    fn name(&self) -> &[u8]
        ensures { result.now ≡ (seen self.now).name };

    /// How many words a call takes.
    fn arity(&self) -> u32
        ensures { result ≡ (seen self.now).arity };

    /// Answers the first waiting answer, or 0 where none waits, and appends one entry to the log.
    /// Name and arity stay.
    ///
    /// The error is want of memory: the host is then unchanged.
    fn call(&mut self, args: &[u32]) -> Result<u32, AllocError>
        requires words { length args.now ≡ (seen self.old).arity }
        requires room { length (seen self.old).log < 4294967295 }
        ensures answer { IfOk result (λ answer. answer ≡ next_answer (seen self.old)) }
        ensures after { OnOk result (seen self.new ≡ called (seen self.old) args.now) }
        ensures err { OnErr result (seen self.new ≡ seen self.old) };

    /// How many entries the log has.
    fn entries(&self) -> u32
        ensures { result ≡ length (seen self.now).log };

    /// One argument of one entry, both by their numbers from 0: `None` exactly where one of the
    /// numbers is out of range.
    fn entry_argument(&self, entry: u32, argument: u32) -> Option<u32>
        ensures { result ≡ argument_at (seen self.now) entry argument };

    /// The answer of one entry, by its number from 0: `None` exactly where it is out of range.
    fn entry_answer(&self, entry: u32) -> Option<u32>
        ensures { result ≡ answer_at (seen self.now) entry };

    /// A log has at most 4294967295 entries.
    ghost log_fits: { (host : Self) → length (seen host).log < 2 ^ 32 };
}
