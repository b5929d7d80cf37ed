ghost use Rattle.std.specs.Prelude.{◌≡◌, ◌⊎◌, [], length, IfOk, OnOk, OnErr};
ghost use Rattle.pt_io.specs.Sink.{Wrote};
ghost use Rattle.pt_io.specs.SinkInMemory.{shown, after_write, after_no_write, after_starved, FailsNext};

use crate::{Calls, IoFailed, Sink};
use std::alloc::Global;
use std::marker::Model;

/// An output in memory, which tells everything. It takes whole pieces.
#[derive(Debug, Drop)]
pub struct MemorySink {
    written: Vec<u8>,
    failing: Calls,
    calls: u64,
    faults: u64,
    starved: u64,
}

impl Model for MemorySink {
    ghost use Rattle.pt_io.specs.SinkInMemory.{SinkInMemory};

    ghost Value = { SinkInMemory };

    ghost view = { λ m. record { written = m.written.items; failing = m.failing; calls = m.calls; faults = m.faults; starved = m.starved } };
}

impl MemorySink {
    /// An empty output. The calls with these numbers will fail.
    pub fn of(alloc: Global, failing: Calls) -> MemorySink
        ensures { result ≡ record { written = []; failing = failing; calls = 0; faults = 0; starved = 0 } }
    {
        MemorySink {
            written: Vec::new(alloc),
            failing,
            calls: 0,
            faults: 0,
            starved: 0,
        }
    }

    pub fn written(&self) -> &[u8]
        ensures { result.now ≡ self.now.written }
    {
        self.written.as_slice()
    }

    /// How many calls found no memory.
    pub fn starved(&self) -> u64
        ensures { result ≡ self.now.starved }
    {
        self.starved
    }
}

impl Sink for MemorySink {
    ghost shows = { shown };

    fn write(&mut self, from: &[u8]) -> Result<usize, IoFailed>
        ensures wrote { Wrote (shown self.old) from.now result (shown self.new) }
        ensures fails { FailsNext self.old → OnErr result (self.new ≡ after_no_write self.old) }
        ensures starved { (FailsNext self.old → ⊥) → OnErr result (self.new ≡ after_starved self.old) }
        ensures ok { OnOk result ((FailsNext self.old → ⊥) × (self.new ≡ after_write self.old from.now)) }
        ensures whole { IfOk result (λ n. n ≡ length from.now) }
    {
        self.calls = self.calls.saturating_add(1);
        if self.failing.as_slice().contains(&self.calls) {
            self.faults = self.faults.saturating_add(1);
            return Err(IoFailed);
        }
        if self.written.extend_from_slice(from).is_err() {
            self.starved = self.starved.saturating_add(1);
            self.faults = self.faults.saturating_add(1);
            return Err(IoFailed);
        }
        Ok(from.len())
    }
}
