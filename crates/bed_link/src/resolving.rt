//! Linking: the five rules in their order, and the layout.
ghost use Rattle.std.specs.Prelude.{◌≡◌, ◌≢◌, ◌≤◌, ◌+◌, ◌^◌, [], map, length, Some, OnOk, IfOk, IfErr};
ghost use Rattle.bed_table.specs.Layout.{sum_of_sizes, code_length};
ghost use Rattle.bed_link.specs.Parts as parts_of;
ghost use Rattle.bed_link.specs.Faults.{refusal};
ghost use Rattle.bed_link.specs.Linkable.{IsLinkable, link_refusal, before_faults};
ghost use Rattle.bed_link.specs.Resolved.{resolved};
ghost use Rattle.bed_link.specs.Seen.{module_of, pair_of};

use crate::differing::none_differs;
use crate::error::LinkError;
use crate::lengths::checked_length;
use crate::linked::{Linked, layout_of};
use crate::outside::{all_apart, outside_imports};
use crate::parts::{Part, parts};
use crate::twice::no_name_twice;
use crate::unresolved::all_resolved;
use bed_lang::{Function, Import, Name};
use bed_names::Scoped;
use std::alloc::Global;

// The length of the code, where no rule before the last is broken.
fn judged(
    alloc: Global,
    modules: &[Scoped],
    functions: &[Part<Function>],
    imports: &[Part<Import>],
    given: &[(Name, u32)],
    base: u32,
) -> Result<u32, LinkError>
    requires few { length modules.now ≤ 64 }
    requires functions { map pair_of functions.now ≡ parts_of.functions (map module_of modules.now) }
    requires imports { map pair_of imports.now ≡ parts_of.imports (map module_of modules.now) }
    ensures accepted { OnOk result (before_faults (map module_of modules.now) given.now base ≡ []) }
    ensures length { IfOk result (λ n. n ≡ code_length (map module_of modules.now)) }
    ensures within { OnOk result (base + sum_of_sizes (map (λ p. p.item.now) functions.now) ≤ 2 ^ 32) }
    ensures refused { IfErr result (λ e. e ≢ LinkError.Memory → refusal (before_faults (map module_of modules.now) given.now base) ≡ Some e) }
{
    no_name_twice(alloc, modules, functions, given)?;
    all_resolved(alloc, functions, imports, given)?;
    none_differs(alloc, modules, functions, imports)?;
    checked_length(functions, base)
}

// The layout, where no rule is broken.
fn placed(
    alloc: Global,
    modules: &[Scoped],
    functions: &[Part<Function>],
    imports: &[Part<Import>],
    given: &[(Name, u32)],
    base: u32,
) -> Result<Linked, LinkError>
    requires few { length modules.now ≤ 64 }
    requires functions { map pair_of functions.now ≡ parts_of.functions (map module_of modules.now) }
    requires imports { map pair_of imports.now ≡ parts_of.imports (map module_of modules.now) }
    ensures linkable { OnOk result (IsLinkable (map module_of modules.now) given.now base) }
    ensures linked { IfOk result (λ l. l ≡ resolved (map module_of modules.now) given.now base) }
    ensures refused { IfErr result (λ e. e ≢ LinkError.Memory → link_refusal (map module_of modules.now) given.now base ≡ Some e) }
{
    let length = judged(alloc, modules, functions, imports, given, base)?;
    let outside = outside_imports(alloc, functions, imports, given)?;
    all_apart(alloc, base, length, outside.as_slice())?;
    let linked = layout_of(alloc, base, length, functions, outside.as_slice())?;
    Ok(linked)
}

/// What stands where in the code of modules from a base, with the addresses that are given for imports, where they can be linked.
///
/// # Errors
/// The first rule that they break, in the order of `LinkError`; or `Memory`, for want of memory.
pub fn resolve(
    alloc: Global,
    modules: &[Scoped],
    imports: &[(Name, u32)],
    base: u32,
) -> Result<Linked, LinkError>
    requires few { length modules.now ≤ 64 }
    ensures linkable { OnOk result (IsLinkable (map module_of modules.now) imports.now base) }
    ensures linked { IfOk result (λ l. l ≡ resolved (map module_of modules.now) imports.now base) }
    ensures refused { IfErr result (λ e. e ≢ LinkError.Memory → link_refusal (map module_of modules.now) imports.now base ≡ Some e) }
{
    let functions = parts(alloc, modules)?;
    let imported = parts(alloc, modules)?;
    placed(
        alloc,
        modules,
        functions.as_slice(),
        imported.as_slice(),
        imports,
        base,
    )
}
