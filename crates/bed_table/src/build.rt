//! Whole images.
ghost use Rattle.std.specs.Prelude.{◌≡◌, ◌+◌, ◌^◌, ◌≤◌, ◌++◌, map, length, codes, IfOk, OnOk};
ghost use Rattle.bed_lang.specs.Numbers.{wrap, word_bytes};
ghost use Rattle.bed_table.specs.Layout as layout;
ghost use Rattle.bed_table.specs.Image as image_format;
ghost use Rattle.bed_table.specs.Seen.{IsTable, label_of, defined_of};

use crate::code::put_functions;
use crate::layout::{Item, all_functions, all_labels, code_length, outside_imports};
use crate::put::put_word;
use crate::scope::Known;
use crate::symbols::SymbolTable;
use bed_lang::{Module, Name};
use std::alloc::{AllocError, Global};

// The symbols of functions that stand from `base` on, and of outside imports.
fn all_symbols(
    alloc: Global,
    functions: &[Item],
    labels: &[Known],
    outside: &[&Name],
    base: u32,
) -> Result<SymbolTable, AllocError>
    requires { base + layout.total_size (map defined_of functions.now) ≤ 4294967296 }
    ensures { IfOk result (IsTable (image_format.symbols_of (layout.placed_from base (map defined_of functions.now)) ++ image_format.import_symbols (layout.address_of (map label_of labels.now)) (map (λ n. n.now) outside.now))) }
{
    let mut table = SymbolTable {
        count: 0,
        bytes: Vec::new(alloc),
    };
    table.put_functions(alloc, functions, base)?;
    table.put_imports(labels, outside)?;
    Ok(table)
}

// Appends what stands before the symbols.
fn put_header(out: &mut Vec<u8>, base: u32, length: u64, count: u32) -> Result<(), AllocError>
    ensures { OnOk result (out.new.items ≡ out.old.items ++ (codes "BIM1" ++ (word_bytes base ++ (word_bytes length ++ word_bytes count)))) }
{
    out.extend_from_slice(b"BIM1")?;
    put_word(out, base as u64)?;
    put_word(out, length)?;
    put_word(out, count as u64)
}

/// The image of modules: `BIM1`, the base, the length of the code, the number of symbols, the symbols and the code, as
/// FORMATS.md says.
///
/// `base` is the address of the first byte of the code. `imports` gives addresses to imports that no module exports, by name;
/// the first of a name counts, and an import that has none is at 0. `code_length` tells whether the code is short enough. The
/// only error is want of memory.
pub fn image(
    alloc: Global,
    modules: &[Module],
    base: u32,
    imports: &[(Name, u32)],
) -> Result<Vec<u8>, AllocError>
    requires short { layout.code_length modules.now ≤ 1048576 }
    requires within { base + layout.code_length modules.now ≤ 2 ^ 32 }
    ensures { IfOk result (λ v. v.items ≡ image_format.image modules.now base imports.now) }
{
    let functions = all_functions(alloc, modules)?;
    let labels = all_labels(alloc, functions.as_slice(), base, imports)?;
    let outside = outside_imports(alloc, functions.as_slice(), modules)?;
    let table = all_symbols(
        alloc,
        functions.as_slice(),
        labels.as_slice(),
        outside.as_slice(),
        base,
    )?;
    let mut out = Vec::new(alloc);
    put_header(&mut out, base, code_length(modules), table.count)?;
    out.extend_from_slice(table.bytes.as_slice())?;
    put_functions(&mut out, labels.as_slice(), base, functions.as_slice())?;
    Ok(out)
}
