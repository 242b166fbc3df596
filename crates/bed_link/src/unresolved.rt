//! Imports that nothing resolves, and given addresses that nothing uses.
ghost use Rattle.std.specs.Prelude.{◌≡◌, ◌≢◌, [], map, filter, Some, OnOk, IfOk, IfErr};
ghost use Rattle.bed_names.specs.Tables.{IsIndex};
ghost use Rattle.bed_link.specs.Faults.{refusal};
ghost use Rattle.bed_link.specs.Linkable.{missing, unused, unresolved_faults};
ghost use Rattle.bed_link.specs.Seen.{Knows, knows};

use crate::error::{LinkError, unresolved};
use crate::parts::Part;
use crate::twice::Named;
use bed_lang::{Function, Import, Name};
use bed_names::Table;
use std::alloc::{AllocError, Global};

// The exported functions.
fn exported_functions<'a>(
    alloc: Global,
    functions: &[Part<'a, Function>],
) -> Result<Vec<Part<'a, Function>>, AllocError>
    ensures { IfOk result (λ v. v.items ≡ filter (λ p. p.item.now.exported) functions.now) }
{
    let mut out = Vec::new(alloc);
    for part in functions {
        if part.item.exported {
            out.push(Part {
                item: part.item,
                number: part.number,
            })?;
        }
    }
    Ok(out)
}

/// The table of the exported functions' names.
pub(crate) fn exported(alloc: Global, functions: &[Part<Function>]) -> Result<Table, AllocError>
    ensures { IfOk result (λ t. Knows t (map (λ p. p.item.now.name) (filter (λ p. p.item.now.exported) functions.now))) }
{
    let exported = exported_functions(alloc, functions)?;
    names(alloc, exported.as_slice())
}

/// The table of names, each with the number of the first that has it.
pub(crate) fn names<T: Named>(alloc: Global, items: &[T]) -> Result<Table, AllocError>
    ensures { IfOk result (λ t. IsIndex t (map T.name_of items.now)) }
{
    let mut table = Table::new(alloc);
    for (number, item) in items.iter().enumerate() {
        table.add(item.name().bytes.as_slice(), number)?;
    }
    Ok(table)
}

// Each import is an exported function or has a given address.
#[tactic(auto, using(crate::proofs::FaultLemmas::append_none, crate::proofs::FaultLemmas::refusal_first, crate::proofs::FaultLemmas::refusal_later))]
fn all_found(
    alloc: Global,
    exported: &Table,
    given: &Table,
    imports: &[Part<Import>],
) -> Result<(), LinkError>
    ensures accepted { OnOk result (missing (knows exported.now) (knows given.now) (map (λ p. p.item.now.name) imports.now) ≡ []) }
    ensures refused { IfErr result (λ e. e ≢ LinkError.Memory → refusal (missing (knows exported.now) (knows given.now) (map (λ p. p.item.now.name) imports.now)) ≡ Some e) }
{
    for part in imports {
        let name = part.item.name.bytes.as_slice();
        if exported.get(name).is_none() && given.get(name).is_none() {
            return Err(unresolved(alloc, &part.item.name));
        }
    }
    Ok(())
}

// Each given address is that of an import.
#[tactic(auto, using(crate::proofs::FaultLemmas::append_none, crate::proofs::FaultLemmas::refusal_first, crate::proofs::FaultLemmas::refusal_later))]
fn all_used(alloc: Global, imported: &Table, given: &[(Name, u32)]) -> Result<(), LinkError>
    ensures accepted { OnOk result (unused (knows imported.now) (map (λ g. g.0) given.now) ≡ []) }
    ensures refused { IfErr result (λ e. e ≢ LinkError.Memory → refusal (unused (knows imported.now) (map (λ g. g.0) given.now)) ≡ Some e) }
{
    for word in given {
        if imported.get(word.0.bytes.as_slice()).is_none() {
            return Err(unresolved(alloc, &word.0));
        }
    }
    Ok(())
}

/// Each import is found, and each given address is used.
pub(crate) fn all_resolved(
    alloc: Global,
    functions: &[Part<Function>],
    imports: &[Part<Import>],
    given: &[(Name, u32)],
) -> Result<(), LinkError>
    ensures accepted { OnOk result (unresolved_faults (map (λ p. p.item.now.name) (filter (λ p. p.item.now.exported) functions.now)) (map (λ p. p.item.now.name) imports.now) (map (λ g. g.0) given.now) ≡ []) }
    ensures refused { IfErr result (λ e. e ≢ LinkError.Memory → refusal (unresolved_faults (map (λ p. p.item.now.name) (filter (λ p. p.item.now.exported) functions.now)) (map (λ p. p.item.now.name) imports.now) (map (λ g. g.0) given.now)) ≡ Some e) }
{
    let exported = exported(alloc, functions)?;
    let words = names(alloc, given)?;
    all_found(alloc, &exported, &words, imports)?;
    let imported = names(alloc, imports)?;
    all_used(alloc, &imported, given)
}
