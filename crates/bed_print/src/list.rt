//! Lists of trees.
ghost use Rattle.std.specs.Prelude.{◌≡◌, ◌≤◌, ◌++◌, OnOk};
ghost use Rattle.bed_print.specs.Kinds.{all_of, each_after, parted};

use crate::leaf::push_fixed;
use bed_lang::List;
use bed_lex::Kind;
use std::alloc::{AllocError, Global};

/// A tree that is printed as tokens.
pub(crate) trait Printed {
    ghost use Rattle.std.specs.Prelude.{List, ◌≡◌, ◌++◌, OnOk};
    ghost use Rattle.bed_lex.specs.declared.token.Kind.{Kind};

    ghost kinds: { Self → List Kind };

    /// Appends the tokens of the tree.
    fn print(&self, alloc: Global, out: &mut List<Kind>) -> Result<(), AllocError>
        ensures { OnOk result (out.new ≡ out.old ++ kinds self.now) };
}

/// Appends the tokens of the trees, one after the other.
pub(crate) fn push_all<T: Printed>(
    alloc: Global,
    items: &[T],
    out: &mut List<Kind>,
) -> Result<(), AllocError>
    ensures { OnOk result (out.new ≡ out.old ++ all_of T.kinds items.now) }
{
    for item in items {
        item.print(alloc, out)?;
    }
    Ok(())
}

/// Appends the tokens of the trees, each after a fixed word.
pub(crate) fn push_each_after<T: Printed>(
    alloc: Global,
    class: u8,
    items: &[T],
    out: &mut List<Kind>,
) -> Result<(), AllocError>
    requires { 3 ≤ class }
    ensures { OnOk result (out.new ≡ out.old ++ each_after class T.kinds items.now) }
{
    for item in items {
        push_fixed(class, out)?;
        item.print(alloc, out)?;
    }
    Ok(())
}

/// Appends the tokens of the trees, with a fixed word between each two.
pub(crate) fn push_parted<T: Printed>(
    alloc: Global,
    class: u8,
    items: &[T],
    out: &mut List<Kind>,
) -> Result<(), AllocError>
    requires { 3 ≤ class }
    ensures { OnOk result (out.new ≡ out.old ++ parted class T.kinds items.now) }
{
    match items {
        [] => Ok(()),
        [first, rest @ ..] => {
            first.print(alloc, out)?;
            push_each_after(alloc, class, rest, out)
        }
    }
}
