ghost use Rattle.std.specs.Prelude.{◌≡◌};
ghost use Rattle.tests_stops.specs.Checks.{both_answer};

use pt_case::{Case, Check, Ending};
use pt_choice::NoMemory;
use pt_val::Name;
use std::alloc::Global;
use std::sync::atomic::AtomicU64;
use std::sync::atomic::Ordering::SeqCst;

/// Draws nothing and passes. Its first two runs each raise a flag and look for the other's, so many times at most: both see it only where
/// they are under way at one time.
#[derive(Drop)]
pub struct Both {
    name: Name,
    runs: AtomicU64,
    first: AtomicU64,
    second: AtomicU64,
    met: AtomicU64,
    turns: u64,
}

impl Both {
    /// The check `both`.
    pub fn of(alloc: Global, turns: u64) -> Result<Both, NoMemory> {
        let Ok(name) = Name::of(alloc, "both") else {
            return Err(NoMemory);
        };
        Ok(Both {
            name,
            runs: AtomicU64::new(0),
            first: AtomicU64::new(0),
            second: AtomicU64::new(0),
            met: AtomicU64::new(0),
            turns,
        })
    }

    pub fn runs(&self) -> u64 {
        self.runs.load(SeqCst)
    }

    pub fn have_met(&self) -> bool {
        self.met.load(SeqCst) == 2
    }

    fn attend(&self) {
        match self.runs.fetch_add(1, SeqCst) {
            0 => self.meet(&self.first, &self.second),
            1 => self.meet(&self.second, &self.first),
            _ => {}
        }
    }

    fn meet(&self, mine: &AtomicU64, yours: &AtomicU64) {
        mine.store(1, SeqCst);
        for _ in 0..self.turns {
            if yours.load(SeqCst) == 1 {
                self.met.fetch_add(1, SeqCst);
                return;
            }
        }
    }
}

impl Check for Both {
    ghost name = { λ check. check.name };

    ghost step = { λ check choices said. said ≡ both_answer choices };

    fn name(&self) -> &Name {
        &self.name
    }

    fn run(&self, _: &mut Case) -> Result<Ending, NoMemory> {
        self.attend();
        Ok(Ending::Pass)
    }
}
