//! The names of a list of items.
ghost use Rattle.std.specs.Prelude.{◌≡◌, [], map, IfOk};
ghost use Rattle.bed_names.specs.Faults.{noted};
ghost use Rattle.bed_names.specs.Tables.{IsIndex};
ghost use Rattle.bed_names.specs.Terms.{twice_faults};

use crate::error::NameError;
use crate::found::note_if;
use crate::table::Table;
use bed_lang::{Name, Predicate, Signature};
use std::alloc::{AllocError, Global};

/// An item that is declared under a name.
pub(crate) trait Named {
    ghost use Rattle.bed_lang.specs.declared.word.Name.{Name};

    ghost name_of: { Self → Name };

    fn name(&self) -> &Name
        ensures { result.now ≡ name_of self.now };
}

impl Named for Signature {
    ghost name_of = { λ s. s.name };

    fn name(&self) -> &Name {
        &self.name
    }
}

impl Named for Predicate {
    ghost name_of = { λ p. p.name };

    fn name(&self) -> &Name {
        &self.name
    }
}

impl Named for (Name, Name) {
    ghost name_of = { λ l. l.0 };

    fn name(&self) -> &Name {
        &self.0
    }
}

/// The table of a list, and what is left of what was found and the names that are declared twice.
#[derive(Drop)]
pub(crate) struct Indexed {
    pub(crate) table: Table,
    pub(crate) found: Option<NameError>,
}

/// The table of the names of a list.
pub(crate) fn index<T: Named>(
    alloc: Global,
    mut found: Option<NameError>,
    items: &[T],
) -> Result<Indexed, AllocError>
    ensures table { IfOk result (λ r. IsIndex r.table (map T.name_of items.now)) }
    ensures found { IfOk result (λ r. r.found ≡ noted found (twice_faults [] (map T.name_of items.now))) }
{
    let mut table = Table::new(alloc);
    for (number, item) in items.iter().enumerate() {
        let name = item.name();
        let is_new = table.add(name.bytes.as_slice(), number)?;
        found = note_if(found, !is_new, NameError::Twice { at: name.at });
    }
    Ok(Indexed { table, found })
}
