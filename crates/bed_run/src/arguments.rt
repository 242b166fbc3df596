//! The arguments of a host's call.
ghost use Rattle.std.specs.Prelude.{◌≡◌, IfOk};
ghost use Rattle.bed_run.specs.Calls.{IsRead};

use bed_machine::{Store, load_word};
use std::alloc::{AllocError, Global};

/// What was read for a call.
#[derive(Drop)]
pub enum Arguments {
    /// All arguments.
    Words(Vec<u32>),
    /// The address of the first that isn't mapped.
    Missing(u32),
}

/// Reads words 1 to `arity` of the frame at `ebp`.
pub fn read_arguments<D: Store>(
    alloc: Global,
    mem: &D,
    ebp: u32,
    arity: u32,
) -> Result<Arguments, AllocError>
    ensures { IfOk result (λ read. IsRead (D.bytes mem.now) ebp arity read) }
{
    let mut args = Vec::new(alloc);
    let mut at = ebp;
    for _number in 0..arity {
        at = at.wrapping_add(4);
        match load_word(mem, at) {
            Some(word) => args.push(word)?,
            None => return Ok(Arguments::Missing(at)),
        }
    }
    Ok(Arguments::Words(args))
}
