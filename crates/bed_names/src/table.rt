//! A table of items by their names.
ghost use Rattle.std.specs.Prelude.{◌≡◌, ◌<◌, [], ◌∷◌, ◌++◌, IfOk, OnOk, OnErr, is_none};
ghost use Rattle.std.specs.Bool.{OnTrue, OnFalse};
ghost use Rattle.bed_names.specs.Tables.{number_of};

use indexmap::IndexMap;
use std::alloc::{AllocError, Global};
use std::marker::Model;

/// Numbers under names; the first number under a name stays. Seen as the list of names' bytes with their numbers, in the order
/// in which they were added.
#[derive(Drop)]
pub struct Table {
    alloc: Global,
    map: IndexMap<Vec<u8>, usize>,
}

impl Model for Table {
    ghost use Rattle.std.specs.Prelude.{List, ℕ};

    ghost Value = { List (List ℕ × ℕ) };

    ghost use Rattle.bed_names.specs.Tables.{by_bytes};

    ghost view = { λ t. by_bytes t.map.entries };
}

impl Table {
    /// An empty table.
    pub fn new(alloc: Global) -> Table
        ensures { result ≡ [] }
    {
        Table {
            alloc,
            map: IndexMap::new(alloc),
        }
    }

    /// The number under a name.
    pub fn get(&self, name: &[u8]) -> Option<usize>
        ensures { result ≡ number_of self.now name.now }
    {
        self.map.get(name).copied()
    }

    /// Adds a name where it is new, and tells whether it was.
    ///
    /// # Errors
    /// `AllocError` for want of memory. The table is then as before.
    pub fn add(&mut self, name: &[u8], value: usize) -> Result<bool, AllocError>
        ensures is_new { IfOk result (λ new. new ≡ is_none (number_of self.old name.now)) }
        ensures new { IfOk result (λ new. OnTrue new (self.new ≡ self.old ++ (name.now, value) ∷ [])) }
        ensures old { IfOk result (λ new. OnFalse new (self.new ≡ self.old)) }
        ensures err { OnErr result (self.new ≡ self.old) }
    {
        if self.map.contains_key(name) {
            return Ok(false);
        }
        let name = Vec::from_slice(self.alloc, name)?;
        self.map.insert(name, value)?;
        Ok(true)
    }
}
