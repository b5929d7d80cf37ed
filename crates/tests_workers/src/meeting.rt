use std::sync::atomic::AtomicU64;
use std::sync::atomic::Ordering::SeqCst;

/// Counts the runs of a check, and tells whether the first two of them were under way at one time.
///
/// Each of the two raises a flag and looks for the other's, so many times at most. Where one goes after the other, the
/// first never sees the second's.
#[derive(Drop)]
pub struct Meeting {
    runs: AtomicU64,
    first: AtomicU64,
    second: AtomicU64,
    met: AtomicU64,
    turns: u64,
}

impl Meeting {
    pub fn of(turns: u64) -> Meeting {
        Meeting {
            runs: AtomicU64::new(0),
            first: AtomicU64::new(0),
            second: AtomicU64::new(0),
            met: AtomicU64::new(0),
            turns,
        }
    }

    pub fn runs(&self) -> u64 {
        self.runs.load(SeqCst)
    }

    pub fn both_met(&self) -> bool {
        self.met.load(SeqCst) == 2
    }

    /// A run has begun.
    pub fn attend(&self) {
        match self.runs.fetch_add(1, SeqCst) {
            0 => self.meet(&self.first, &self.second),
            1 => self.meet(&self.second, &self.first),
            _ => {}
        }
    }

    fn meet(&self, mine: &AtomicU64, yours: &AtomicU64) {
        mine.store(1, SeqCst);
        for _ in 0..self.turns {
            if yours.load(SeqCst) == 1 {
                self.met.fetch_add(1, SeqCst);
                return;
            }
        }
    }
}
