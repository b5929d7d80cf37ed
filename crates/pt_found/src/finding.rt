use crate::Trail;
use pt_case::Record;
use pt_choice::Seq;
use pt_val::Name;

/// Where a failure was found.
#[derive(Clone, Copy, Debug, PartialEq, Eq)]
pub enum Found {
    /// Among the stored lists of the item.
    Stored,
    /// In the run of this number.
    Run(u32),
}

/// What the examination of an item came to.
#[derive(Debug, Drop)]
pub enum Verdict {
    /// As many runs passed as were asked for.
    Passed,
    /// Ten times as many runs were made as were asked for, and too few passed.
    GaveUp,
    /// A stored list or a run failed.
    Failed {
        /// The failure that is shown, once it was reduced.
        shown: Record,
        found: Found,
        /// The reduction used up its budget.
        spent: bool,
    },
}

/// One truth value for each stored list: whether it failed.
pub type Flags = Seq<bool>;

/// What is found out of one item.
#[derive(Drop)]
pub struct Finding {
    pub name: Name,
    pub verdict: Verdict,
    /// The runs that were made.
    pub seen: u32,
    /// Those of them that passed.
    pub valid: u32,
    /// The passing runs that were asked for.
    pub runs: u32,
    /// The lists that a reduction might try.
    pub budget: u32,
    pub failing: Flags,
    /// The lists that the reduction tried, or none where nothing failed.
    pub trail: Trail,
}

pub type Findings = Seq<Finding>;
