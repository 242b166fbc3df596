//! Why a module is refused.

use std::alloc::AllocError;
use thiserror::Error;

/// The first rule of names that a module breaks. A place `at` is an offset in bytes.
#[derive(Clone, Copy, Debug, Drop, Error)]
pub enum NameError {
    /// A name is declared again in its name space, in one list, or while it is in scope; or two of
    /// the locals that `find` or `walk` names are one. At the second name.
    #[error("declared twice at {at}")]
    Twice { at: u32 },
    /// A name, `old a` or `result` isn't in scope. At that token.
    #[error("unknown at {at}")]
    Unknown { at: u32 },
    /// A term isn't of the sort that its place asks for. At its first token.
    #[error("of another sort at {at}")]
    Sort { at: u32 },
    /// A predicate, a call or a hint `fold` has another number of arguments, or the case of a
    /// `fold` isn't there. At the predicate's name, or at `call`.
    #[error("another number of arguments at {at}")]
    Arity { at: u32 },
    /// A statement follows one that can't fall through, at its first token; or a `join` follows an
    /// `if` that can't, at `join`.
    #[error("dead at {at}")]
    Dead { at: u32 },
    /// Both bodies of an `if` fall through and it has no `join`. At `if`.
    #[error("a join is missing at {at}")]
    MissingJoin { at: u32 },
    /// The body of a function falls through. At its closing brace.
    #[error("falls off at {at}")]
    FallsOff { at: u32 },
    /// There are more locals than reserved words, at the function's name, `needs` being the locals
    /// and `has` the words; or a callee's frame is greater than the call area, at `call`, `needs`
    /// being the frame and `has` the area.
    #[error("stack room at {at}: needs {needs}, has {has}")]
    StackRoom { at: u32, needs: u32, has: u32 },
    /// Want of memory.
    #[error("want of memory")]
    Memory,
}

impl From<AllocError> for NameError {
    ghost use Rattle.std.specs.Prelude.{◌≡◌};
    ghost use Rattle.bed_names.specs.declared.error.NameError.TheVariants.{Memory};

    ghost from_gives = { λ _ e. e ≡ Memory };

    fn from(_: AllocError) -> NameError {
        NameError::Memory
    }
}
