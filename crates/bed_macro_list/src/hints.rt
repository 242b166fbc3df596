//! The hints of loops over lists.

ghost use Rattle.std.specs.Prelude.{◌≡◌, ◌∷◌, [], codes, IfOk};
ghost use Rattle.bed_table.specs.ListLoops.{word_named as word_of_name};
ghost use Rattle.bed_sat.specs.Written.{unfold_at as unfold_of, fold_segment as fold_segment_of, fold_list as fold_list_of};

use crate::copies::{three, two};
use crate::terms::{hole, name, word_arg, word_named};
use bed_lang::{Arg, Hint, List, Name};
use std::alloc::{AllocError, Global};

/// `unfold predicate at x`.
pub(crate) fn unfold_at(alloc: Global, predicate: &[u8], x: &Name) -> Result<Hint, AllocError>
    ensures { IfOk result (λ h. h ≡ unfold_of predicate.now x.now) }
{
    let word = word_named(alloc, x)?;
    Ok(Hint::Unfold(name(alloc, predicate)?, Some(word)))
}

// The arguments `x, y, _`.
fn segment_args(alloc: Global, x: &Name, y: &Name) -> Result<List<Arg>, AllocError>
    ensures { IfOk result (λ r. r ≡ Arg.Word 0 (word_of_name x.now) ∷ Arg.Word 0 (word_of_name y.now) ∷ Rattle.bed_sat.specs.Written.hole ∷ []) }
{
    let x = word_arg(alloc, x)?;
    let y = word_arg(alloc, y)?;
    three(alloc, x, y, hole())
}

/// `fold lseg(x, y, _) case c`.
pub(crate) fn fold_segment(alloc: Global, x: &Name, y: &Name, case: u32) -> Result<Hint, AllocError>
    ensures { IfOk result (λ h. h ≡ fold_segment_of x.now y.now case) }
{
    let args = segment_args(alloc, x, y)?;
    Ok(Hint::Fold(name(alloc, b"lseg")?, args, case))
}

/// `fold lst(x, _) case 1`.
pub(crate) fn fold_list(alloc: Global, x: &Name) -> Result<Hint, AllocError>
    ensures { IfOk result (λ h. h ≡ fold_list_of x.now) }
{
    let x = word_arg(alloc, x)?;
    let args = two(alloc, x, hole())?;
    Ok(Hint::Fold(name(alloc, b"lst")?, args, 1))
}
