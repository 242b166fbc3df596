//! The writes.
ghost use Rattle.std.specs.Prelude.{map};
ghost use Rattle.bed_top.specs.Gives.{written_of};
ghost use Rattle.bed_top.specs.Writes.{Writes};

use crate::plan::{Fault, Write, unwritten};
use bed_io::{FileRefusal, Files};
use std::alloc::Global;

/// Makes the writes in order.
pub(crate) fn write_all<F: Files>(
    alloc: Global,
    files: &mut F,
    writes: &[Write],
) -> Result<(), Fault>
    ensures { Writes (map written_of writes.now) (F.seen files.old) (F.seen files.new) result }
{
    let [write, rest @ ..] = writes else {
        return Ok(());
    };
    match files.write(write.name.as_slice(), &write.bytes) {
        Ok(()) => write_all(alloc, files, rest),
        Err(FileRefusal::Failed) => Err(unwritten(alloc, write.name.as_slice())),
        Err(FileRefusal::Memory) => Err(Fault::Memory),
    }
}
