//! Lists of few items.

ghost use Rattle.std.specs.Prelude.{◌≡◌, ◌∷◌, [], IfOk};

use bed_lang::List;
use std::alloc::{AllocError, Global};

/// A list of two items.
pub(crate) fn two<T: Drop>(alloc: Global, a: T, b: T) -> Result<List<T>, AllocError>
    ensures { IfOk result (λ r. r ≡ a ∷ b ∷ []) }
{
    let mut out = List::new(alloc);
    out.push(a)?;
    out.push(b)?;
    Ok(out)
}

/// A list of three items.
pub(crate) fn three<T: Drop>(alloc: Global, a: T, b: T, c: T) -> Result<List<T>, AllocError>
    ensures { IfOk result (λ r. r ≡ a ∷ b ∷ c ∷ []) }
{
    let mut out = two(alloc, a, b)?;
    out.push(c)?;
    Ok(out)
}
