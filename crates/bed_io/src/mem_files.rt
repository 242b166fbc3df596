// Files in memory, with a list of the calls that are to fail.
ghost use Rattle.std.specs.Prelude.{◌≡◌, ◌≤◌, ◌++◌, ◌==◌, ◌||◌, ◌↔◌, true, List, ℕ, length, IsTrue, IsErrOf, None, is_none, refl};
ghost use Rattle.std.specs.Option.{option_copied};
ghost use Rattle.bed_io.specs.Calls.{CallsState, next_fails, after_call};
ghost use Rattle.bed_io.specs.Files.{Reads, Puts, Sets, NoFaults, bytes_of, faults_after};

use crate::calls::Calls;
use crate::counter::Counter;
use crate::folder::{Folder, copy_first};
use crate::{FileRefusal, Files};
use std::alloc::{AllocError, Global};

/// Files in memory, with a list of the numbers of the calls that are to fail.
///
/// The calls of `read`, `write` and `append` share one numbering, from 1. A call answers `Failed`
/// exactly where its number is in the list, or where it reads an absent file, and then alone the
/// count of its kind goes up, by one. The files are calm exactly where the list is empty.
#[derive(Drop)]
pub struct MemFiles {
    folder: Folder,
    calls: Calls,
    read_faults: Counter,
    write_faults: Counter,
}

impl MemFiles {
    ghost use Rattle.bed_io.specs.MemFiles.{calls_of, files_of};

    /// No file, with the numbers of the calls that are to fail.
    pub fn new(alloc: Global, fails: Vec<u64>) -> MemFiles
        ensures absent { (name : List ℕ) → (files_of result).held name ≡ None }
        ensures calm { (files_of result).calm ≡ (length fails.items == 0) }
        ensures no_faults { NoFaults (files_of result) }
        ensures calls { calls_of result ≡ record { made = 0; to_fail = fails.items } }
    {
        MemFiles {
            folder: Folder::new(alloc),
            calls: Calls::new(fails),
            read_faults: Counter::new(),
            write_faults: Counter::new(),
        }
    }

    /// Makes these bytes the contents of a file. It changes nothing else and is no call.
    ///
    /// The error is want of memory: nothing is then known of that file alone.
    pub fn set(&mut self, name: &[u8], bytes: &[u8]) -> Result<(), AllocError>
        ensures sets { Sets (files_of self.old) (files_of self.new) name.now bytes.now result }
        ensures calls { calls_of self.new ≡ calls_of self.old }
    {
        self.folder.set(name, bytes)
    }

    /// The contents of a file; `None` exactly where it is absent. It is no call.
    pub fn contents(&self, name: &[u8]) -> Option<&[u8]>
        ensures { option_copied result ≡ (files_of self.now).held name.now }
    {
        self.folder.get(name)
    }
}

impl Files for MemFiles {
    ghost use Rattle.bed_io.specs.MemFiles.{calls_of, files_of};

    ghost seen = { files_of };

    ghost calm_tells = { λ _ _. refl };

    ghost counts_fit = { λ files. (files.read_faults.fits, files.write_faults.fits) };

    fn read(&mut self, name: &[u8], most: usize, into: &mut Vec<u8>) -> Result<(), FileRefusal>
        requires { most ≤ 17_825_792 }
        ensures reads { Reads (files_of self.old) (files_of self.new) name.now most into.new.items result }
        ensures exactly { IsErrOf result FileRefusal.Failed ↔ IsTrue (next_fails (calls_of self.old) || is_none ((files_of self.old).held name.now)) }
        ensures count { (files_of self.new).read_faults ≡ faults_after (files_of self.old).read_faults result }
        ensures calls { calls_of self.new ≡ after_call (calls_of self.old) }
    {
        into.clear();
        if self.calls.next_fails() {
            self.read_faults.raise();
            return Err(FileRefusal::Failed);
        }
        match self.folder.get(name) {
            None => {
                self.read_faults.raise();
                Err(FileRefusal::Failed)
            }
            Some(bytes) => copy_first(bytes, most, into).map_err(|_| FileRefusal::Memory),
        }
    }

    fn write(&mut self, name: &[u8], bytes: &[u8]) -> Result<(), FileRefusal>
        ensures puts { Puts (files_of self.old) (files_of self.new) name.now bytes.now result }
        ensures exactly { IsErrOf result FileRefusal.Failed ↔ IsTrue (next_fails (calls_of self.old)) }
        ensures count { (files_of self.new).write_faults ≡ faults_after (files_of self.old).write_faults result }
        ensures calls { calls_of self.new ≡ after_call (calls_of self.old) }
    {
        if self.calls.next_fails() {
            self.write_faults.raise();
            return Err(FileRefusal::Failed);
        }
        self.folder
            .set(name, bytes)
            .map_err(|_| FileRefusal::Memory)
    }

    fn append(&mut self, name: &[u8], bytes: &[u8]) -> Result<(), FileRefusal>
        ensures puts { Puts (files_of self.old) (files_of self.new) name.now (bytes_of (files_of self.old) name.now ++ bytes.now) result }
        ensures exactly { IsErrOf result FileRefusal.Failed ↔ IsTrue (next_fails (calls_of self.old)) }
        ensures count { (files_of self.new).write_faults ≡ faults_after (files_of self.old).write_faults result }
        ensures calls { calls_of self.new ≡ after_call (calls_of self.old) }
    {
        if self.calls.next_fails() {
            self.write_faults.raise();
            return Err(FileRefusal::Failed);
        }
        self.folder
            .extend(name, bytes)
            .map_err(|_| FileRefusal::Memory)
    }
}
