// Files in memory that never fail.
ghost use Rattle.std.specs.Prelude.{◌≡◌, ◌≢◌, ◌≤◌, ◌++◌, List, ℕ, IsTrue, None, Err, refl};
ghost use Rattle.std.proofs.Common.{rules};
ghost use Rattle.std.specs.Option.{option_copied};
ghost use Rattle.bed_io.specs.Files.{Reads, Puts, Sets, NoFaults, bytes_of};

use crate::folder::{Folder, copy_first};
use crate::{FileRefusal, Files};
use std::alloc::{AllocError, Global};

/// Files in memory that never answer `Failed`. An absent file reads as an empty one. They are
/// calm, and both counts stay 0.
#[derive(Drop)]
pub struct CalmFiles {
    folder: Folder,
}

impl CalmFiles {
    ghost use Rattle.bed_io.specs.CalmFiles.{files_of};

    /// No file.
    pub fn new(alloc: Global) -> CalmFiles
        ensures absent { (name : List ℕ) → (files_of result).held name ≡ None }
        ensures calm { IsTrue (files_of result).calm }
        ensures no_faults { NoFaults (files_of result) }
    {
        CalmFiles {
            folder: Folder::new(alloc),
        }
    }

    /// Makes these bytes the contents of a file, and changes nothing else.
    ///
    /// The error is want of memory: nothing is then known of that file alone.
    pub fn set(&mut self, name: &[u8], bytes: &[u8]) -> Result<(), AllocError>
        ensures { Sets (files_of self.old) (files_of self.new) name.now bytes.now result }
    {
        self.folder.set(name, bytes)
    }

    /// The contents of a file; `None` exactly where it is absent.
    pub fn contents(&self, name: &[u8]) -> Option<&[u8]>
        ensures { option_copied result ≡ (files_of self.now).held name.now }
    {
        self.folder.get(name)
    }
}

impl Files for CalmFiles {
    ghost use Rattle.bed_io.specs.CalmFiles.{files_of};

    ghost seen = { files_of };

    ghost calm_tells = { λ _ _. refl };

    ghost counts_fit = { λ _. (Prim.search rules, Prim.search rules) };

    fn read(&mut self, name: &[u8], most: usize, into: &mut Vec<u8>) -> Result<(), FileRefusal>
        requires { most ≤ 17_825_792 }
        ensures reads { Reads (files_of self.old) (files_of self.new) name.now most into.new.items result }
        ensures never { result ≢ Err FileRefusal.Failed }
        ensures no_faults { NoFaults (files_of self.new) }
    {
        let bytes = self.folder.get(name).unwrap_or(&[]);
        copy_first(bytes, most, into).map_err(|_| FileRefusal::Memory)
    }

    fn write(&mut self, name: &[u8], bytes: &[u8]) -> Result<(), FileRefusal>
        ensures puts { Puts (files_of self.old) (files_of self.new) name.now bytes.now result }
        ensures never { result ≢ Err FileRefusal.Failed }
        ensures no_faults { NoFaults (files_of self.new) }
    {
        self.folder
            .set(name, bytes)
            .map_err(|_| FileRefusal::Memory)
    }

    fn append(&mut self, name: &[u8], bytes: &[u8]) -> Result<(), FileRefusal>
        ensures puts { Puts (files_of self.old) (files_of self.new) name.now (bytes_of (files_of self.old) name.now ++ bytes.now) result }
        ensures never { result ≢ Err FileRefusal.Failed }
        ensures no_faults { NoFaults (files_of self.new) }
    {
        self.folder
            .extend(name, bytes)
            .map_err(|_| FileRefusal::Memory)
    }
}
