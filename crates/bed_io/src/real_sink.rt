// The standard output as a sink. Only its count of faults is proved.
ghost use Rattle.std.specs.Prelude.{◌≡◌, ◌↔◌, IsErr};
ghost use Rattle.bed_io.specs.Sink.{SinkState, Takes, untold_sink, faults_after_put};

use crate::counter::Counter;
use crate::{Failed, Sink};
use std::io;
use std::io::Write;

/// The standard output. It tells nothing of the bytes taken: that the bytes of a put reach the
/// output, all and in their order, is trusted. Nothing is buffered here.
///
/// Its count of faults goes up by one at each put that std refuses, also where the system takes
/// nothing of bytes that are left.
#[derive(Drop)]
pub struct RealSink<'a, R: Print> {
    rt: &'a R,
    faults: Counter,
}

impl<'a, R: Print> RealSink<'a, R> {
    /// The standard output of this runtime, with no fault counted.
    pub fn new(rt: &'a R) -> RealSink<'a, R>
        ensures { ⟦<RealSink<'a, R> as Sink>⟧.seen result ≡ untold_sink 0 }
    {
        RealSink {
            rt,
            faults: Counter::new(),
        }
    }

    // The answer to an outcome of std, each of whose errors counts as a fault.
    fn judged(&mut self, outcome: io::Result<()>) -> Result<(), Failed>
        ensures answer { IsErr result ↔ IsErr outcome }
        ensures count { self.new.faults.count ≡ faults_after_put self.old.faults.count outcome }
    {
        match outcome {
            Ok(()) => Ok(()),
            Err(_) => {
                self.faults.raise();
                Err(Failed)
            }
        }
    }
}

impl<'a, R: Print> Sink for RealSink<'a, R> {
    ghost seen = { λ sink. untold_sink sink.faults.count };

    ghost count_fits = { λ sink. sink.faults.fits };

    fn put(&mut self, bytes: &[u8]) -> Result<(), Failed>
        ensures takes { Takes (⟦<RealSink<'a, R> as Sink>⟧.seen self.old) (⟦<RealSink<'a, R> as Sink>⟧.seen self.new) bytes.now result }
        ensures count { (⟦<RealSink<'a, R> as Sink>⟧.seen self.new).faults ≡ faults_after_put (⟦<RealSink<'a, R> as Sink>⟧.seen self.old).faults result }
    {
        let outcome = io::writer(self.rt).write_all(bytes);
        self.judged(outcome)
    }
}
