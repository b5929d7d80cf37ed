ghost use Rattle.std.specs.Prelude.{◌≡◌};
ghost use Rattle.std.specs.Io.KnownBytes.{WriteAppends};
ghost use Rattle.pt_io.specs.Sink.{Wrote};
ghost use Rattle.pt_real.specs.Untold.{untold_sink};

use crate::outcome::counted;
use pt_io::{IoFailed, Sink};
use std::io::Write;

/// An output of the machine, as the standard output. It tells nothing of what it was given; each error counts as a
/// fault, and so does a write that takes nothing of a nonempty piece.
#[derive(Drop)]
pub struct StdSink<W> {
    to: W,
    faults: u64,
}

impl<W: Write> StdSink<W> {
    /// No fault is counted yet.
    pub fn of(to: W) -> StdSink<W>
        ensures writer { result.to ≡ to }
        ensures no_faults { result.faults ≡ 0 }
    {
        StdSink { to, faults: 0 }
    }

    /// How many calls failed.
    pub fn faults(&self) -> u64
        ensures { result ≡ self.now.faults }
    {
        self.faults
    }
}

impl<W: Write> Sink for StdSink<W> {
    ghost shows = { λ sink. untold_sink sink.faults };

    fn write(&mut self, from: &[u8]) -> Result<usize, IoFailed>
        ensures wrote { Wrote (untold_sink self.old.faults) from.now result (untold_sink self.new.faults) }
        // What it answers is what the machine's output took.
        ensures took { WriteAppends (W.contents self.old.to) (W.contents self.new.to) result from.now }
    {
        let taken = counted(&mut self.faults, self.to.write(from))?;
        if taken == 0 && !from.is_empty() {
            return counted(&mut self.faults, Err(IoFailed));
        }
        Ok(taken)
    }
}
