// The system's files. Only their counts of faults are proved.
ghost use Rattle.std.specs.Prelude.{◌≡◌, ◌≤◌, ◌++◌, ◌↔◌, Err, IsErr};
ghost use Rattle.std.specs.Str.{IsUtf8};
ghost use Rattle.bed_io.specs.Files.{FilesState, Reads, Puts, bytes_of, untold_files, faults_after};

use crate::counter::Counter;
use crate::{FileRefusal, Files};
use std::fs::{File, OpenOptions};
use std::io;
use std::io::{ErrorKind, Read, Write};
use std::rt::Files as FileSystem;

/// The system's files, by their paths. They tell nothing of contents: that a read gives the bytes
/// of the file, that a write or an append stores the given ones, and that no other file is
/// changed, is trusted.
///
/// The count of a call's kind goes up by one exactly where the call answers `Failed`, which is at
/// each error of std but want of memory, also where the system takes nothing of bytes that are
/// left. A name that isn't UTF-8 is a failed call. They are never calm.
#[derive(Drop)]
pub struct RealFiles<'a, R: FileSystem> {
    rt: &'a R,
    read_faults: Counter,
    write_faults: Counter,
}

impl<'a, R: FileSystem> RealFiles<'a, R> {
    /// The files of this runtime, with no fault counted.
    pub fn new(rt: &'a R) -> RealFiles<'a, R>
        ensures { ⟦<RealFiles<'a, R> as Files>⟧.seen result ≡ untold_files 0 0 }
    {
        RealFiles {
            rt,
            read_faults: Counter::new(),
            write_faults: Counter::new(),
        }
    }

    fn put(&mut self, options: &OpenOptions, name: &[u8], bytes: &[u8]) -> Result<(), FileRefusal>
        ensures reads { self.new.read_faults.count ≡ self.old.read_faults.count }
        ensures count { self.new.write_faults.count ≡ faults_after self.old.write_faults.count result }
        ensures not_text { ¬ (IsUtf8 name.now) → result ≡ Err FileRefusal.Failed }
    {
        let Ok(path) = str::from_utf8(name) else {
            self.write_faults.raise();
            return Err(FileRefusal::Failed);
        };
        judged(
            &mut self.write_faults,
            write_with(self.rt, options, path, bytes),
        )
    }
}

// The answer to an outcome of std. Each of its errors but want of memory counts as a fault.
fn judged(faults: &mut Counter, outcome: io::Result<()>) -> Result<(), FileRefusal>
    ensures answer { IsErr result ↔ IsErr outcome }
    ensures count { faults.new.count ≡ faults_after faults.old.count result }
{
    match outcome {
        Ok(()) => Ok(()),
        Err(error) => {
            if error.kind() == ErrorKind::OutOfMemory {
                return Err(FileRefusal::Memory);
            }
            faults.raise();
            Err(FileRefusal::Failed)
        }
    }
}

// Adds the first bytes of a file, at most so many.
fn read_first<R: FileSystem>(
    rt: &R,
    path: &str,
    count: usize,
    into: &mut Vec<u8>,
) -> io::Result<()> {
    let file = File::open(rt, path)?;
    file.take(count as u64).read_to_end(into)?;
    Ok(())
}

// Opens a file by these options and writes the bytes.
fn write_with<R: FileSystem>(
    rt: &R,
    options: &OpenOptions,
    path: &str,
    bytes: &[u8],
) -> io::Result<()> {
    let mut file = options.open(rt, path)?;
    file.write_all(bytes)
}

impl<'a, R: FileSystem> Files for RealFiles<'a, R> {
    ghost seen = { λ files. untold_files files.read_faults.count files.write_faults.count };

    ghost calm_tells = { λ _ calm. calm };

    ghost counts_fit = { λ files. (files.read_faults.fits, files.write_faults.fits) };

    fn read(&mut self, name: &[u8], most: usize, into: &mut Vec<u8>) -> Result<(), FileRefusal>
        requires { most ≤ 17_825_792 }
        ensures reads { Reads (⟦<RealFiles<'a, R> as Files>⟧.seen self.old) (⟦<RealFiles<'a, R> as Files>⟧.seen self.new) name.now most into.new.items result }
        ensures count { (⟦<RealFiles<'a, R> as Files>⟧.seen self.new).read_faults ≡ faults_after (⟦<RealFiles<'a, R> as Files>⟧.seen self.old).read_faults result }
        ensures not_text { ¬ (IsUtf8 name.now) → result ≡ Err FileRefusal.Failed }
    {
        into.clear();
        let Ok(path) = str::from_utf8(name) else {
            self.read_faults.raise();
            return Err(FileRefusal::Failed);
        };
        let outcome = read_first(self.rt, path, most + 1, into);
        match judged(&mut self.read_faults, outcome) {
            Ok(()) => {
                into.truncate(most + 1);
                Ok(())
            }
            Err(refusal) => {
                into.clear();
                Err(refusal)
            }
        }
    }

    fn write(&mut self, name: &[u8], bytes: &[u8]) -> Result<(), FileRefusal>
        ensures puts { Puts (⟦<RealFiles<'a, R> as Files>⟧.seen self.old) (⟦<RealFiles<'a, R> as Files>⟧.seen self.new) name.now bytes.now result }
        ensures count { (⟦<RealFiles<'a, R> as Files>⟧.seen self.new).write_faults ≡ faults_after (⟦<RealFiles<'a, R> as Files>⟧.seen self.old).write_faults result }
        ensures not_text { ¬ (IsUtf8 name.now) → result ≡ Err FileRefusal.Failed }
    {
        let mut options = OpenOptions::new();
        options.write(true).create(true).truncate(true);
        self.put(&options, name, bytes)
    }

    fn append(&mut self, name: &[u8], bytes: &[u8]) -> Result<(), FileRefusal>
        ensures puts { Puts (⟦<RealFiles<'a, R> as Files>⟧.seen self.old) (⟦<RealFiles<'a, R> as Files>⟧.seen self.new) name.now (bytes_of (⟦<RealFiles<'a, R> as Files>⟧.seen self.old) name.now ++ bytes.now) result }
        ensures count { (⟦<RealFiles<'a, R> as Files>⟧.seen self.new).write_faults ≡ faults_after (⟦<RealFiles<'a, R> as Files>⟧.seen self.old).write_faults result }
        ensures not_text { ¬ (IsUtf8 name.now) → result ≡ Err FileRefusal.Failed }
    {
        let mut options = OpenOptions::new();
        options.append(true).create(true);
        self.put(&options, name, bytes)
    }
}
