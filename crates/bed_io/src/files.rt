// Files as a program sees them.
ghost use Rattle.std.specs.Prelude.{◌≤◌, ◌<◌, ◌^◌, ◌++◌, IsTrue};
ghost use Rattle.bed_io.specs.Files.{FilesState, Reads, Puts, bytes_of};

/// Why a call on files was refused.
#[derive(Clone, Copy, Debug, PartialEq, Eq)]
pub enum FileRefusal {
    /// The system or the store refused the call. The count of faults of its kind rose.
    Failed,
    /// There was not enough memory.
    Memory,
}

/// Files by name. A name is any bytes.
///
/// They are seen as: whether they tell their contents; whether they are calm; the contents by
/// name, where they are told; a count of the faults of reads, and one of those of writes and
/// appends. Whether they tell their contents and whether they are calm never changes. No count
/// falls. A count is at most 18446744073709551615, and one that stands there counts as risen.
///
/// Of calm files the count of write faults stays, and the count of read faults rises only in the
/// read of an absent file. Calm files tell their contents.
pub trait Files {
    ghost seen: { Self → FilesState };

    /// Makes `into` the contents of the file, or their first `most + 1` bytes where they are
    /// longer, whatever `into` held before. An absent file is a failed read, or an empty one where
    /// the implementation says so. No file is changed, and after an `Err` `into` is empty.
    ///
    /// `Failed` comes only where the count of read faults rose in this call. The count of write
    /// faults stays.
    fn read(&mut self, name: &[u8], most: usize, into: &mut Vec<u8>) -> Result<(), FileRefusal>
        requires { most ≤ 17_825_792 }
        ensures { Reads (seen self.old) (seen self.new) name.now most into.new.items result };

    /// Makes these bytes the contents of the file, whether or not it is there. No other file is
    /// changed. After an `Err` nothing is known of this file.
    ///
    /// `Failed` comes only where the count of write faults rose in this call. The count of read
    /// faults stays.
    fn write(&mut self, name: &[u8], bytes: &[u8]) -> Result<(), FileRefusal>
        ensures { Puts (seen self.old) (seen self.new) name.now bytes.now result };

    /// Adds these bytes at the end of the file; an absent file is made of these bytes. No other
    /// file is changed. After an `Err` nothing is known of this file.
    ///
    /// `Failed` comes only where the count of write faults rose in this call. The count of read
    /// faults stays.
    fn append(&mut self, name: &[u8], bytes: &[u8]) -> Result<(), FileRefusal>
        ensures { Puts (seen self.old) (seen self.new) name.now (bytes_of (seen self.old) name.now ++ bytes.now) result };

    /// Calm files tell their contents.
    ghost calm_tells: { (files : Self) → IsTrue (seen files).calm → IsTrue (seen files).tells };

    /// No count passes 18446744073709551615.
    ghost counts_fit: { (files : Self) → ((seen files).read_faults < 2 ^ 64) × ((seen files).write_faults < 2 ^ 64) };
}
