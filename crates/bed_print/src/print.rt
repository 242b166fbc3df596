//! Modules printed as texts.
ghost use Rattle.std.specs.Prelude.{◌≡◌, ◌++◌, OnOk, OnErr};
ghost use Rattle.bed_print.specs.Kinds.{module_kinds};
ghost use Rattle.bed_print.specs.Layout.{text_of};
ghost use Rattle.bed_print.specs.Printing.{ReadsBack, ScopesBack};

use crate::item::push_module;
use crate::layout::push_text;
use bed_lang::{List, Module};
use std::alloc::{AllocError, Global};

fn append(alloc: Global, m: &Module, out: &mut Vec<u8>) -> Result<(), AllocError>
    ensures printed { OnOk result (out.new.items ≡ out.old.items ++ text_of (module_kinds m.now)) }
    ensures unchanged { OnErr result (out.new.items ≡ out.old.items) }
{
    let mut kinds = List::new(alloc);
    push_module(alloc, m, &mut kinds)?;
    let mut text = Vec::new(alloc);
    push_text(alloc, kinds.as_slice(), &mut text)?;
    out.extend_from_slice(text.as_slice())
}

/// Appends the text of a module to `out`.
///
/// Words follow with one blank, operators, `*` and `|->` stand between blanks, and lists have a comma and a blank. In a sum a
/// right part that is itself a sum has brackets, and a left part where the sum would have more than 256 parts. A displacement
/// of 0 and an empty `else` are left out; `reserving` is always shown. An argument that is a word of one name has brackets,
/// since a name alone is of either sort. A new line comes after `;`, `{` and `}` (but before `else` and `join`) and before a
/// further case of a predicate.
///
/// # Errors
/// `AllocError` for want of memory: `out` is as it was.
pub fn print_module(alloc: Global, m: &Module, out: &mut Vec<u8>) -> Result<(), AllocError>
    ensures printed { OnOk result (out.new.items ≡ out.old.items ++ text_of (module_kinds m.now)) }
    // Where some text has this module, what was appended reads back as it, places set aside.
    ensures reads_back { OnOk result (ReadsBack m.now out.old.items out.new.items) }
    // Where some text has a module that keeps the rules of names, and this is what scoping makes of it, what was appended
    // has a module that scoping takes to this one, places set aside.
    ensures scopes_back { OnOk result (ScopesBack m.now out.old.items out.new.items) }
    ensures unchanged { OnErr result (out.new.items ≡ out.old.items) }
{
    append(alloc, m, out)
}
