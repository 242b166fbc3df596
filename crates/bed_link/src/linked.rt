//! What stands where in the code of linked modules.
ghost use Rattle.std.specs.Prelude.{◌≡◌, ◌+◌, ◌^◌, ◌<◌, ◌≤◌, ◌∷◌, ◌++◌, All, [], map, IfOk, OnOk};
ghost use Rattle.bed_table.specs.Code.{function_piece};
ghost use Rattle.bed_table.specs.Layout.{sum_of_sizes};
ghost use Rattle.bed_link.specs.Seen.{entries_from, loop_at, loops_from, outside_of};

use crate::outside::Outside;
use crate::parts::Part;
use bed_lang::{Function, List, Name};
use bed_table::{function_length, push_function_heads};
use std::alloc::{AllocError, Global};

/// The layout of linked modules.
#[derive(Drop)]
pub struct Linked {
    /// The address of the code's first byte.
    pub base: u32,
    /// The number of its bytes.
    pub length: u32,
    /// Each function's name, its address, and whether it is exported, in layout order.
    pub functions: List<(Name, u32, bool)>,
    /// The number of each loop's function, from 0, and the address of its head, in layout order.
    pub loops: List<(u32, u32)>,
    /// The imports that the outside has, with their addresses, in the order of their first declaration.
    pub imports: List<(Name, u32)>,
}

// Appends a function at its address.
fn push_function(
    alloc: Global,
    out: &mut List<(Name, u32, bool)>,
    function: &Function,
    at: u32,
) -> Result<(), AllocError>
    ensures { OnOk result (out.new ≡ out.old ++ (function.now.name, at, function.now.exported) ∷ []) }
{
    let name = function.name.copy(alloc)?;
    out.push((name, at, function.exported))
}

// Functions one right after the other from a base.
fn functions_at(
    alloc: Global,
    base: u32,
    functions: &[Part<Function>],
) -> Result<List<(Name, u32, bool)>, AllocError>
    requires { base + sum_of_sizes (map (λ p. p.item.now) functions.now) ≤ 2 ^ 32 }
    ensures { IfOk result (λ l. l ≡ entries_from base (map (λ p. p.item.now) functions.now)) }
{
    let mut out = List::new(alloc);
    let mut at = base as u64;
    for part in functions {
        push_function(alloc, &mut out, part.item, at as u32)?;
        at += function_length(part.item);
    }
    Ok(out)
}

// Appends loops of a function.
fn push_loops(out: &mut List<(u32, u32)>, number: u32, heads: &[u64]) -> Result<(), AllocError>
    requires { All (λ h. h < 2 ^ 32) heads.now }
    ensures { OnOk result (out.new ≡ out.old ++ map (loop_at number) heads.now) }
{
    for head in heads {
        out.push((number, *head as u32))?;
    }
    Ok(())
}

// Appends the loops of a function that stands at an address.
fn push_function_loops(
    alloc: Global,
    out: &mut List<(u32, u32)>,
    number: u32,
    at: u64,
    function: &Function,
) -> Result<(), AllocError>
    requires { at + (function_piece function.now).size ≤ 2 ^ 32 }
    ensures { OnOk result (out.new ≡ out.old ++ map (loop_at number) (map (λ h. h.address) ((function_piece function.now).heads at))) }
{
    let mut heads = Vec::new(alloc);
    push_function_heads(&mut heads, at, function)?;
    push_loops(out, number, heads.as_slice())
}

// The loops of functions one right after the other from a base.
fn loops_at(
    alloc: Global,
    base: u32,
    functions: &[Part<Function>],
) -> Result<List<(u32, u32)>, AllocError>
    requires { base + sum_of_sizes (map (λ p. p.item.now) functions.now) ≤ 2 ^ 32 }
    ensures { IfOk result (λ l. l ≡ loops_from 0 base (map (λ p. p.item.now) functions.now)) }
{
    let mut out = List::new(alloc);
    let mut number: u32 = 0;
    let mut at = base as u64;
    for part in functions {
        push_function_loops(alloc, &mut out, number, at, part.item)?;
        at += function_length(part.item);
        number += 1;
    }
    Ok(out)
}

// Appends an import with its address.
fn push_import(
    alloc: Global,
    out: &mut List<(Name, u32)>,
    import: &Outside,
) -> Result<(), AllocError>
    ensures { OnOk result (out.new ≡ out.old ++ outside_of import.now ∷ []) }
{
    let name = import.name.copy(alloc)?;
    out.push((name, import.address))
}

// Imports with their addresses.
fn imports_of(alloc: Global, imports: &[Outside]) -> Result<List<(Name, u32)>, AllocError>
    ensures { IfOk result (λ l. l ≡ map outside_of imports.now) }
{
    let mut out = List::new(alloc);
    for import in imports {
        push_import(alloc, &mut out, import)?;
    }
    Ok(out)
}

/// What stands where: functions one right after the other from a base, their loops, and imports.
pub(crate) fn layout_of(
    alloc: Global,
    base: u32,
    length: u32,
    functions: &[Part<Function>],
    imports: &[Outside],
) -> Result<Linked, AllocError>
    requires { base + sum_of_sizes (map (λ p. p.item.now) functions.now) ≤ 2 ^ 32 }
    ensures base { IfOk result (λ l. l.base ≡ base) }
    ensures length { IfOk result (λ l. l.length ≡ length) }
    ensures functions { IfOk result (λ l. l.functions ≡ entries_from base (map (λ p. p.item.now) functions.now)) }
    ensures loops { IfOk result (λ l. l.loops ≡ loops_from 0 base (map (λ p. p.item.now) functions.now)) }
    ensures imports { IfOk result (λ l. l.imports ≡ map outside_of imports.now) }
{
    let loops = loops_at(alloc, base, functions)?;
    let imports = imports_of(alloc, imports)?;
    let functions = functions_at(alloc, base, functions)?;
    Ok(Linked {
        base,
        length,
        functions,
        loops,
        imports,
    })
}
