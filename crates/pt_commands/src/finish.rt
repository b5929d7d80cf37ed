use pt_case::Record;
use pt_edits::TwoValues;
use pt_found::Findings;

/// What a call of the program comes to.
#[derive(Drop)]
pub struct Finish {
    /// The exit status.
    pub status: u8,
    /// What is found out of the items that were examined, in their order.
    pub findings: Findings,
    /// The record of a replay that was shown whole.
    pub replayed: Option<Record>,
    /// With status 8 the two values that clash.
    pub clash: Option<TwoValues>,
}
