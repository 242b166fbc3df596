//! Names that are declared twice.
ghost use Rattle.std.specs.Prelude.{◌≡◌, ◌≢◌, [], map, Some, OnOk, IfOk, IfErr};
ghost use Rattle.bed_names.specs.Tables.{IsIndex};
ghost use Rattle.bed_link.specs.Faults.{refusal};
ghost use Rattle.bed_link.specs.Linkable.{repeated, given_twice, twice_faults};
ghost use Rattle.bed_link.specs.Seen.{knows};

use crate::error::{LinkError, twice};
use crate::parts::{Item, Part};
use bed_lang::{Function, Name};
use bed_names::{Scoped, Table};
use std::alloc::Global;

/// What has a name.
pub(crate) trait Named {
    ghost use Rattle.bed_lang.specs.declared.word.Name.{Name};

    ghost name_of: { Self → Name };

    fn name(&self) -> &Name
        ensures { result.now ≡ name_of self.now };
}

impl Named for Scoped {
    ghost name_of = { λ s. s.module.name };

    fn name(&self) -> &Name {
        &self.module().name
    }
}

impl Named for (Name, u32) {
    ghost name_of = { λ g. g.0 };

    fn name(&self) -> &Name {
        &self.0
    }
}

impl<'a, T: Item> Named for Part<'a, T> {
    ghost name_of = { λ p. T.name_of p.item.now };

    fn name(&self) -> &Name {
        self.item.name()
    }
}

/// The table of names none of which is there twice.
pub(crate) fn distinct<T: Named>(alloc: Global, items: &[T]) -> Result<Table, LinkError>
    ensures accepted { OnOk result (repeated (map T.name_of items.now) ≡ []) }
    ensures table { IfOk result (λ t. IsIndex t (map T.name_of items.now)) }
    ensures refused { IfErr result (λ e. e ≢ LinkError.Memory → refusal (repeated (map T.name_of items.now)) ≡ Some e) }
{
    let mut table = Table::new(alloc);
    for (number, item) in items.iter().enumerate() {
        let name = item.name();
        let is_new = table.add(name.bytes.as_slice(), number)?;
        if !is_new {
            return Err(twice(alloc, name));
        }
    }
    Ok(table)
}

// No item has a name of the table.
#[tactic(auto, using(crate::proofs::FaultLemmas::append_none, crate::proofs::FaultLemmas::refusal_first, crate::proofs::FaultLemmas::refusal_later))]
fn apart<T: Named>(alloc: Global, given: &Table, items: &[T]) -> Result<(), LinkError>
    ensures accepted { OnOk result (given_twice (knows given.now) (map T.name_of items.now) ≡ []) }
    ensures refused { IfErr result (λ e. e ≢ LinkError.Memory → refusal (given_twice (knows given.now) (map T.name_of items.now)) ≡ Some e) }
{
    for item in items {
        let name = item.name();
        if given.get(name.bytes.as_slice()).is_some() {
            return Err(twice(alloc, name));
        }
    }
    Ok(())
}

/// No name is there twice.
#[tactic(auto, using(crate::proofs::FaultLemmas::append_none, crate::proofs::FaultLemmas::refusal_first, crate::proofs::FaultLemmas::refusal_later))]
pub(crate) fn no_name_twice(
    alloc: Global,
    modules: &[Scoped],
    functions: &[Part<Function>],
    given: &[(Name, u32)],
) -> Result<(), LinkError>
    ensures accepted { OnOk result (twice_faults (map (λ s. s.module.name) modules.now) (map (λ p. p.item.now.name) functions.now) (map (λ g. g.0) given.now) ≡ []) }
    ensures refused { IfErr result (λ e. e ≢ LinkError.Memory → refusal (twice_faults (map (λ s. s.module.name) modules.now) (map (λ p. p.item.now.name) functions.now) (map (λ g. g.0) given.now)) ≡ Some e) }
{
    distinct(alloc, modules)?;
    distinct(alloc, functions)?;
    let given = distinct(alloc, given)?;
    apart(alloc, &given, functions)
}
