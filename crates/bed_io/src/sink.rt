// A sink of bytes, as a program sees it.
ghost use Rattle.std.specs.Prelude.{◌<◌, ◌^◌};
ghost use Rattle.bed_io.specs.Sink.{SinkState, Takes};

/// A put failed. The sink's count of faults rose.
#[derive(Clone, Copy, Debug, PartialEq, Eq)]
pub struct Failed;

/// A sink of bytes.
///
/// It is seen as: whether it tells the bytes taken, which never changes; the bytes taken, in their
/// order, where they are told; and a count of faults that never falls. The count is at most
/// 18446744073709551615, and one that stands there counts as risen.
pub trait Sink {
    ghost seen: { Self → SinkState };

    /// Takes all the bytes. It takes no memory.
    ///
    /// `Failed` comes only where the count of faults rose in this call. A prefix of the bytes may
    /// then have been taken.
    fn put(&mut self, bytes: &[u8]) -> Result<(), Failed>
        ensures { Takes (seen self.old) (seen self.new) bytes.now result };

    /// The count does not pass 18446744073709551615.
    ghost count_fits: { (sink : Self) → (seen sink).faults < 2 ^ 64 };
}
