use pt_case::Record;
use pt_found::{Flags, Found};

/// What the stored lists and the runs came to, before any reduction.
#[derive(Drop)]
pub enum Decision {
    /// As many runs passed as were asked for.
    Passed,
    /// Ten times as many runs were made as were asked for, and too few passed.
    GaveUp,
    /// A stored list or a run failed.
    Failed { first: Record, found: Found },
}

/// What was decided, and what was counted.
#[derive(Drop)]
pub struct Outcome {
    pub decision: Decision,
    pub failing: Flags,
    /// The runs that were made.
    pub seen: u32,
    /// Those of them that passed.
    pub valid: u32,
}
