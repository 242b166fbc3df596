//! Where functions stand, and what labels mean.
ghost use Rattle.std.specs.Prelude.{◌≡◌, ◌+◌, ◌-◌, ◌^◌, ◌<◌, ◌≤◌, [], ◌++◌, map, min, IfOk, OnOk};
ghost use Rattle.bed_table.specs.Code.{function_piece, params_of as params_in};
ghost use Rattle.bed_table.specs.Layout as layout;
ghost use Rattle.bed_table.specs.Seen.{label_of, defined_of};

use crate::scope::Known;
use crate::size::{ENTRY, body_size, small_body_size};
use bed_lang::{Function, Import, Module, Name, Signature};
use std::alloc::{AllocError, Global};

// A function with its parameters.
#[derive(Drop)]
pub(crate) struct Item<'a> {
    pub(crate) function: &'a Function,
    pub(crate) params: &'a [Name],
}

// The parameters of the first signature of a name.
fn params_of<'a>(signatures: &'a [Signature], name: &Name) -> &'a [Name]
    ensures { result.now ≡ params_in signatures.now name.now.bytes }
{
    for signature in signatures {
        if signature.name.bytes.as_slice() == name.bytes.as_slice() {
            return signature.params.as_slice();
        }
    }
    &[]
}

// The number of a function's bytes, where it is known to be small.
pub(crate) fn function_size(function: &Function) -> u64
    requires { (function_piece function.now).size < 2 ^ 64 }
    ensures { result ≡ (function_piece function.now).size }
{
    ENTRY + small_body_size(function.body.as_slice())
}

// Appends the functions of a module.
fn push_functions<'a>(out: &mut Vec<Item<'a>>, source: &'a Module) -> Result<(), AllocError>
    ensures { OnOk result (map defined_of out.new.items ≡ map defined_of out.old.items ++ layout.defined_in source.now) }
{
    let signatures = source.signatures.as_slice();
    for function in source.functions.as_slice() {
        let params = params_of(signatures, &function.signature);
        out.push(Item { function, params })?;
    }
    Ok(())
}

// The functions of all modules, in layout order.
pub(crate) fn all_functions<'a>(
    alloc: Global,
    modules: &'a [Module],
) -> Result<Vec<Item<'a>>, AllocError>
    ensures { IfOk result (λ v. map defined_of v.items ≡ layout.all_defined modules.now) }
{
    let mut out = Vec::new(alloc);
    for module in modules {
        push_functions(&mut out, module)?;
    }
    Ok(out)
}

// Appends the labels of functions that stand from `base` on.
fn push_labels<'a>(
    out: &mut Vec<Known<'a>>,
    functions: &[Item<'a>],
    base: u32,
) -> Result<(), AllocError>
    requires { base + layout.total_size (map defined_of functions.now) ≤ 4294967296 }
    ensures { OnOk result (map label_of out.new.items ≡ map label_of out.old.items ++ map layout.function_label (layout.placed_from base (map defined_of functions.now))) }
{
    let mut at = base as u64;
    for item in functions {
        let size = function_size(item.function);
        out.push(Known {
            name: &item.function.name,
            address: at as u32,
        })?;
        at += size;
    }
    Ok(())
}

// The labels: the functions, and then the addresses that are given for imports.
pub(crate) fn all_labels<'a>(
    alloc: Global,
    functions: &[Item<'a>],
    base: u32,
    imports: &'a [(Name, u32)],
) -> Result<Vec<Known<'a>>, AllocError>
    requires { base + layout.total_size (map defined_of functions.now) ≤ 4294967296 }
    ensures { IfOk result (λ v. map label_of v.items ≡ map layout.function_label (layout.placed_from base (map defined_of functions.now)) ++ map layout.import_label imports.now) }
{
    let mut out = Vec::new(alloc);
    push_labels(&mut out, functions, base)?;
    for import in imports {
        out.push(Known {
            name: &import.0,
            address: import.1,
        })?;
    }
    Ok(out)
}

// Whether there is an exported function of this name.
fn exports(functions: &[Item], name: &Name) -> bool
    ensures { result ≡ layout.exports (map defined_of functions.now) name.now.bytes }
{
    for item in functions {
        if item.function.exported && item.function.name.bytes.as_slice() == name.bytes.as_slice() {
            return true;
        }
    }
    false
}

fn is_among(names: &[&Name], name: &Name) -> bool
    ensures { result ≡ layout.is_among (map (λ n. n.now) names.now) name.now.bytes }
{
    for other in names {
        if other.bytes.as_slice() == name.bytes.as_slice() {
            return true;
        }
    }
    false
}

// Appends the imports of a module that aren't exported functions and aren't there yet.
fn push_outside<'a>(
    seen: &mut Vec<&'a Name>,
    functions: &[Item],
    imports: &'a [Import],
) -> Result<(), AllocError>
    ensures { OnOk result (map (λ n. n.now) seen.new.items ≡ layout.outside_names (map defined_of functions.now) (map (λ n. n.now) seen.old.items) (map (λ i. i.name) imports.now)) }
{
    for import in imports {
        if !exports(functions, &import.name) && !is_among(seen.as_slice(), &import.name) {
            seen.push(&import.name)?;
        }
    }
    Ok(())
}

// The imports that no module exports, in the order of their first declaration.
pub(crate) fn outside_imports<'a>(
    alloc: Global,
    functions: &[Item],
    modules: &'a [Module],
) -> Result<Vec<&'a Name>, AllocError>
    ensures { IfOk result (λ v. map (λ n. n.now) v.items ≡ layout.outside_names (map defined_of functions.now) [] (layout.imported modules.now)) }
{
    let mut seen = Vec::new(alloc);
    for module in modules {
        push_outside(&mut seen, functions, module.imports.as_slice())?;
    }
    Ok(seen)
}

/// The number of bytes of a function's code, at most 18446744073709551615. A longer code gives that number.
pub fn function_length(function: &Function) -> u64
    ensures { result ≡ min (function_piece function.now).size (2 ^ 64 - 1) }
{
    body_size(function.body.as_slice()).saturating_add(ENTRY)
}

// The length of the code of a module's functions, added to another length.
fn module_size(before: u64, functions: &[Function]) -> u64
    ensures { result ≡ min (before + layout.sum_of_sizes functions.now) (2 ^ 64 - 1) }
{
    let mut size = before;
    for function in functions {
        size = size.saturating_add(function_length(function));
    }
    size
}

/// The number of bytes of the code of modules, at most 18446744073709551615. A longer code gives that number.
pub fn code_length(modules: &[Module]) -> u64
    ensures { result ≡ min (layout.code_length modules.now) (2 ^ 64 - 1) }
{
    let mut size = 0;
    for module in modules {
        size = module_size(size, module.functions.as_slice());
    }
    size
}
