//! The printed lines, as they are put.
ghost use Rattle.std.specs.Prelude.{map};
ghost use Rattle.bed_top.specs.Lines.{text_of};
ghost use Rattle.bed_top.specs.Puts.{Put, PutMemory, SinkGoesOn};

use crate::line::{Line, MEMORY};
use crate::status::Status;
use bed_io::{Failed, Sink};
use std::alloc::Global;

/// Puts the line of want of memory.
pub(crate) fn put_memory<K: Sink>(out: &mut K) -> Status
    ensures put { PutMemory (K.seen out.old) (K.seen out.new) result }
    ensures goes_on { SinkGoesOn (K.seen out.old) (K.seen out.new) }
{
    match out.put(MEMORY) {
        Ok(()) => Status::Memory,
        Err(Failed) => Status::WriteFault { sink: true },
    }
}

/// Puts the lines of a status, each once.
pub(crate) fn report<K: Sink>(alloc: Global, lines: &[Line], due: Status, out: &mut K) -> Status
    ensures put { Put (map text_of lines.now) due (K.seen out.old) (K.seen out.new) result }
    ensures goes_on { SinkGoesOn (K.seen out.old) (K.seen out.new) }
{
    let [line, rest @ ..] = lines else {
        return due;
    };
    match line.text(alloc) {
        Ok(text) => match out.put(&text) {
            Ok(()) => report(alloc, rest, due, out),
            Err(Failed) => Status::WriteFault { sink: true },
        },
        Err(_) => put_memory(out),
    }
}
