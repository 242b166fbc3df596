// Files in memory.
ghost use Rattle.std.specs.Prelude.{◌≡◌, ◌≢◌, ◌+◌, ◌≤◌, ◌++◌, [], length, List, ℕ, OnOk, OnErr, Some, None, unwrap_or};
ghost use Rattle.std.specs.Option.{option_copied};
ghost use Rattle.bed_io.specs.Files.{up_to};

use std::alloc::{AllocError, Global};
use std::collections::BTreeMap;

/// Files in memory: the contents by name.
#[derive(Drop)]
pub struct Folder {
    alloc: Global,
    files: BTreeMap<Vec<u8>, Vec<u8>>,
}

impl Folder {
    ghost use Rattle.bed_io.specs.Folder.{held_in};

    /// No file.
    pub fn new(alloc: Global) -> Folder
        ensures { (name : List ℕ) → held_in result name ≡ None }
    {
        Folder {
            alloc,
            files: BTreeMap::new(alloc),
        }
    }

    /// The contents of a file; `None` exactly where it is absent.
    pub fn get(&self, name: &[u8]) -> Option<&[u8]>
        ensures { option_copied result ≡ held_in self.now name.now }
    {
        match self.files.get(name) {
            Some(bytes) => Some(bytes.as_slice()),
            None => None,
        }
    }

    /// Makes these bytes the contents of a file.
    pub fn set(&mut self, name: &[u8], bytes: &[u8]) -> Result<(), AllocError>
        ensures set { OnOk result (held_in self.new name.now ≡ Some bytes.now) }
        ensures others { (other : List ℕ) → other ≢ name.now → held_in self.new other ≡ held_in self.old other }
    {
        let bytes = Vec::from_slice(self.alloc, bytes)?;
        self.insert(name, bytes)
    }

    /// Adds these bytes at the end of a file. An absent file is empty.
    pub fn extend(&mut self, name: &[u8], bytes: &[u8]) -> Result<(), AllocError>
        ensures set { OnOk result (held_in self.new name.now ≡ Some (unwrap_or (held_in self.old name.now) [] ++ bytes.now)) }
        ensures others { (other : List ℕ) → other ≢ name.now → held_in self.new other ≡ held_in self.old other }
    {
        let mut all = Vec::new(self.alloc);
        if let Some(held) = self.get(name) {
            all.extend_from_slice(held)?;
        }
        all.extend_from_slice(bytes)?;
        self.insert(name, all)
    }

    fn insert(&mut self, name: &[u8], bytes: Vec<u8>) -> Result<(), AllocError>
        ensures set { OnOk result (held_in self.new name.now ≡ Some bytes.items) }
        ensures others { (other : List ℕ) → other ≢ name.now → held_in self.new other ≡ held_in self.old other }
    {
        let name = Vec::from_slice(self.alloc, name)?;
        self.files.insert(name, bytes)?;
        Ok(())
    }
}

/// Makes `into` these bytes, or their first `most + 1`. After want of memory it is empty.
#[tactic(auto, unfolding(crate::specs::Files::up_to))]
pub fn copy_first(bytes: &[u8], most: usize, into: &mut Vec<u8>) -> Result<(), AllocError>
    requires { most ≤ 17_825_792 }
    ensures ok { OnOk result (into.new.items ≡ up_to most bytes.now) }
    ensures short { length into.new.items ≤ most + 1 }
    ensures err { OnErr result (into.new.items ≡ []) }
{
    into.clear();
    let count = bytes.len().min(most + 1);
    into.extend_from_slice(&bytes[..count])
}
