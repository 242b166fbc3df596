//! The imports that no module exports, with the addresses that are given for them.
ghost use Rattle.std.specs.Prelude.{◌≡◌, ◌≢◌, ℕ, List, [], ◌∷◌, ◌++◌, ◌||◌, cond, map, is_some, Some, OnOk, IfOk, IfErr};
ghost use Rattle.bed_names.specs.Tables.{IsIndex, item_at, number_of};
ghost use Rattle.bed_table.specs.Layout.{Defined, address_of, import_label, exports, outside_names};
ghost use Rattle.bed_link.specs.Faults.{refusal};
ghost use Rattle.bed_link.specs.Linkable.{address_fault, address_faults, lies_in as lies_in_code, is_shared as is_shared_by, with_given};
ghost use Rattle.bed_link.specs.Seen.{Knows, address_or_none, outside_of};

use crate::error::{LinkError, bad_address};
use crate::parts::Part;
use crate::unresolved::{exported, names};
use bed_lang::{Function, Import, Name};
use bed_names::Table;
use std::alloc::{AllocError, Global};

/// An import that no module exports.
#[derive(Drop)]
pub(crate) struct Outside<'a> {
    pub(crate) name: &'a Name,
    pub(crate) address: u32,
}

// The given address with a number; 0 where there is none.
fn address_at(given: &[(Name, u32)], number: Option<usize>) -> u32
    ensures { result ≡ address_or_none (item_at given.now number) }
{
    let Some(number) = number else {
        return 0;
    };
    match given.get(number) {
        Some(word) => word.1,
        None => 0,
    }
}

// The address that is given for a name; 0 where none is.
fn address_under(table: &Table, given: &[(Name, u32)], name: &Name) -> u32
    requires { IsIndex table.now (map (λ g. g.0) given.now) }
    ensures { result ≡ address_of (map import_label given.now) name.now.bytes }
{
    address_at(given, table.get(name.bytes.as_slice()))
}

// Appends a name that isn't an exported function's and isn't there yet.
fn push_new<'a>(
    exported: &Table,
    seen: &mut Table,
    out: &mut Vec<&'a Name>,
    name: &'a Name,
) -> Result<(), AllocError>
    ensures names { OnOk result (map (λ n. n.now) out.new.items ≡ cond (is_some (number_of exported.now name.now.bytes) || is_some (number_of seen.old name.now.bytes)) (map (λ n. n.now) out.old.items) (map (λ n. n.now) out.old.items ++ name.now ∷ [])) }
    ensures seen { Knows seen.old (map (λ n. n.now) out.old.items) → OnOk result (Knows seen.new (map (λ n. n.now) out.new.items)) }
{
    let bytes = name.bytes.as_slice();
    if exported.get(bytes).is_some() {
        return Ok(());
    }
    let is_new = seen.add(bytes, 0)?;
    if is_new {
        out.push(name)?;
    }
    Ok(())
}

// The names of imports that aren't exported functions, each at its first place.
fn outside_names_of<'a>(
    alloc: Global,
    exported: &Table,
    imports: &[Part<'a, Import>],
) -> Result<Vec<&'a Name>, AllocError>
    ensures { IfOk result (λ v. (ds : List Defined) → ((x : List ℕ) → is_some (number_of exported.now x) ≡ exports ds x) → map (λ n. n.now) v.items ≡ outside_names ds [] (map (λ p. p.item.now.name) imports.now)) }
{
    let mut seen = Table::new(alloc);
    let mut out = Vec::new(alloc);
    for part in imports {
        push_new(exported, &mut seen, &mut out, &part.item.name)?;
    }
    Ok(out)
}

// The names with the addresses that are given for them.
fn with_addresses<'a>(
    alloc: Global,
    given: &[(Name, u32)],
    imports: &[&'a Name],
) -> Result<Vec<Outside<'a>>, AllocError>
    ensures { IfOk result (λ v. map outside_of v.items ≡ map (λ n. with_given given.now n.now) imports.now) }
{
    let table = names(alloc, given)?;
    let mut out = Vec::new(alloc);
    for name in imports {
        let address = address_under(&table, given, name);
        out.push(Outside { name, address })?;
    }
    Ok(out)
}

/// The imports that no module exports, in the order of their first declaration.
pub(crate) fn outside_imports<'a>(
    alloc: Global,
    functions: &[Part<Function>],
    imports: &[Part<'a, Import>],
    given: &[(Name, u32)],
) -> Result<Vec<Outside<'a>>, AllocError>
    ensures { IfOk result (λ v. (ds : List Defined) → map (λ d. d.function) ds ≡ map (λ p. p.item.now) functions.now → map outside_of v.items ≡ map (with_given given.now) (outside_names ds [] (map (λ p. p.item.now.name) imports.now))) }
{
    let exported = exported(alloc, functions)?;
    let imports = outside_names_of(alloc, &exported, imports)?;
    with_addresses(alloc, given, imports.as_slice())
}

// Whether more than one import has this address. The addresses are few: at most as many as are given.
fn is_shared(imports: &[Outside], address: u32) -> bool
    ensures { result ≡ is_shared_by (map outside_of imports.now) address }
{
    let mut count: usize = 0;
    for import in imports {
        if import.address == address {
            count += 1;
        }
    }
    count > 1
}

// Whether an address lies in the code.
fn lies_in(base: u32, length: u32, address: u32) -> bool
    ensures { result ≡ lies_in_code base length address }
{
    base <= address && (address as u64) < base as u64 + length as u64
}

// The address of an import isn't in the code, nor that of another.
fn is_apart(
    alloc: Global,
    base: u32,
    length: u32,
    imports: &[Outside],
    import: &Outside,
) -> Result<(), LinkError>
    ensures accepted { OnOk result (address_fault base length (map outside_of imports.now) (outside_of import.now) ≡ []) }
    ensures refused { IfErr result (λ e. e ≢ LinkError.Memory → refusal (address_fault base length (map outside_of imports.now) (outside_of import.now)) ≡ Some e) }
{
    if lies_in(base, length, import.address) || is_shared(imports, import.address) {
        return Err(bad_address(alloc, import.name));
    }
    Ok(())
}

/// No import has an address in the code, or that of another.
pub(crate) fn all_apart(
    alloc: Global,
    base: u32,
    length: u32,
    imports: &[Outside],
) -> Result<(), LinkError>
    ensures accepted { OnOk result (address_faults base length (map outside_of imports.now) ≡ []) }
    ensures refused { IfErr result (λ e. e ≢ LinkError.Memory → refusal (address_faults base length (map outside_of imports.now)) ≡ Some e) }
{
    for import in imports {
        is_apart(alloc, base, length, imports, import)?;
    }
    Ok(())
}
