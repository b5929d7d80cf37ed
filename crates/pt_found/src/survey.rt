use crate::Trail;
use pt_case::Record;
use pt_choice::Seq;
use pt_val::Name;

/// One origin at which runs failed, and its first failure made simpler.
#[derive(Drop)]
pub struct Fault {
    /// The number of the first run that failed at the origin, counted from 0.
    pub run: u32,
    /// How many of the runs failed at it.
    pub times: u32,
    /// The failure that is shown, once it was reduced.
    pub shown: Record,
    /// The lists that the reduction tried.
    pub trail: Trail,
    /// The lists that it might try.
    pub budget: u32,
    /// The reduction used up its budget.
    pub spent: bool,
}

pub type Faults = Seq<Fault>;

/// All that the runs of one item failed at.
#[derive(Drop)]
pub struct Survey {
    pub name: Name,
    /// The runs that were to pass or fail.
    pub runs: u32,
    /// The runs that were made and counted.
    pub seen: u32,
    /// Those of them that passed.
    pub valid: u32,
    /// One for each origin, in the order of their first runs.
    pub faults: Faults,
}

pub type Surveys = Seq<Survey>;
