//! What the work comes to.
ghost use Rattle.std.specs.Prelude.{◌≡◌};
ghost use Rattle.bed_top.specs.Gives.{IsStop};
ghost use Rattle.bed_top.specs.Outcomes.{IsFault};
ghost use Rattle.bed_top.specs.Lines.{write_fault_line};
ghost use Rattle.bed_top.specs.Work.{not_built};

use crate::line::Line;
use crate::status::Status;
use bed_lang::{List, Text, Which};
use std::alloc::{AllocError, Global};

/// A file that is to be written whole.
#[derive(Drop)]
pub(crate) struct Write {
    pub(crate) name: Text,
    pub(crate) bytes: Vec<u8>,
}

/// What is due at the end.
#[derive(Drop)]
pub(crate) struct Plan {
    pub(crate) status: Status,
    pub(crate) writes: Vec<Write>,
    pub(crate) lines: Vec<Line>,
}

/// Why the work stops.
#[derive(Drop)]
pub(crate) enum Stop {
    Refused { status: Status, line: Line },
    Memory,
}

impl From<AllocError> for Stop {
    ghost use Rattle.std.specs.Prelude.{◌≡◌};
    ghost use Rattle.bed_top.specs.declared.plan.Stop.{Stop};

    ghost from_gives = { λ _ e. e ≡ Stop.Memory };

    fn from(_error: AllocError) -> Stop {
        Stop::Memory
    }
}

/// Why a file couldn't be written.
#[derive(Drop)]
pub(crate) enum Fault {
    Failed(Line),
    Memory,
}

/// The fault of a write of this file.
pub(crate) fn unwritten(alloc: Global, name: &[u8]) -> Fault
    ensures { IsFault result (write_fault_line name.now) }
{
    match List::from_slice(alloc, name) {
        Ok(name) => Fault::Failed(Line::WriteFault(name)),
        Err(_) => Fault::Memory,
    }
}

pub(crate) fn refuse_limit(which: Which) -> Stop
    ensures { result ≡ Stop.Refused (Status.Limit which) (Line.Limit which) }
{
    Stop::Refused {
        status: Status::Limit { which },
        line: Line::Limit(which),
    }
}

/// The refusal of a word or a file that needs what isn't built.
pub(crate) fn refuse_unbuilt(alloc: Global, what: &[u8]) -> Stop
    ensures { IsStop (not_built what.now) result }
{
    let Ok(line) = List::from_slice(alloc, what) else {
        return Stop::Memory;
    };
    match List::from_slice(alloc, what) {
        Ok(what) => Stop::Refused {
            status: Status::NotBuilt { what },
            line: Line::NotBuilt(line),
        },
        Err(_) => Stop::Memory,
    }
}
