//! Lists of trees.
ghost use Rattle.std.specs.Prelude.{◌≡◌, ◌++◌, OnOk};
ghost use Rattle.bed_condition_text.specs.Texts.{each_after, parted, listed};

use std::alloc::{AllocError, Global};

/// A tree that is written as a text.
pub(crate) trait Written {
    ghost use Rattle.std.specs.Prelude.{ℕ, List, ◌≡◌, ◌++◌, OnOk};

    ghost text: { Self → List ℕ };

    /// Appends the text of the tree.
    fn write(&self, alloc: Global, out: &mut Vec<u8>) -> Result<(), AllocError>
        ensures { OnOk result (out.new.items ≡ out.old.items ++ text self.now) };
}

/// Appends the texts of the trees, each after a mark.
fn push_each_after<T: Written>(
    alloc: Global,
    mark: &[u8],
    items: &[T],
    out: &mut Vec<u8>,
) -> Result<(), AllocError>
    ensures { OnOk result (out.new.items ≡ out.old.items ++ each_after mark.now T.text items.now) }
{
    for item in items {
        out.extend_from_slice(mark)?;
        item.write(alloc, out)?;
    }
    Ok(())
}

/// Appends the texts of the trees, with a mark between each two.
pub(crate) fn push_parted<T: Written>(
    alloc: Global,
    mark: &[u8],
    items: &[T],
    out: &mut Vec<u8>,
) -> Result<(), AllocError>
    ensures { OnOk result (out.new.items ≡ out.old.items ++ parted mark.now T.text items.now) }
{
    match items {
        [] => Ok(()),
        [first, rest @ ..] => {
            first.write(alloc, out)?;
            push_each_after(alloc, mark, rest, out)
        }
    }
}

/// Appends the texts of the trees, with commas.
pub(crate) fn push_listed<T: Written>(
    alloc: Global,
    items: &[T],
    out: &mut Vec<u8>,
) -> Result<(), AllocError>
    ensures { OnOk result (out.new.items ≡ out.old.items ++ listed T.text items.now) }
{
    push_parted(alloc, b", ", items, out)
}
