//! Why a reader stopped.
ghost use Rattle.std.specs.Prelude.{◌≡◌};
ghost use Rattle.bed_grammar.specs.declared.refusal.Refusal.TheVariants.{Memory};

use std::alloc::{AllocError, AllocFailed};

/// Why a reader of tokens `T` with limits `L` stopped.
#[derive(Drop)]
pub enum Refusal<'a, T, L> {
    /// Memory ran out.
    Memory,
    /// The first token of `rest`, or the end of the tokens where `rest` is empty, can't stand where it does.
    At {
        /// The tokens from the refused one on.
        rest: &'a [T],
        /// The limit that the refused token passes, where it would be in place within it.
        limit: Option<L>,
    },
}

impl<'a, T, L> From<AllocError> for Refusal<'a, T, L> {
    ghost from_gives = { λ _ e. e ≡ Memory };

    fn from(_error: AllocError) -> Refusal<'a, T, L> {
        Refusal::Memory
    }
}

impl<'a, T, L, V: Drop> From<AllocFailed<V>> for Refusal<'a, T, L> {
    ghost from_gives = { λ _ e. e ≡ Memory };

    fn from(_error: AllocFailed<V>) -> Refusal<'a, T, L> {
        Refusal::Memory
    }
}
