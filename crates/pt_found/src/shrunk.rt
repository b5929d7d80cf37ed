use crate::Trail;
use pt_case::Record;

/// What a reduction leaves.
#[derive(Drop)]
pub struct Shrunk {
    /// The record of the last list that was accepted, or the first record.
    pub best: Record,
    pub trail: Trail,
    /// The budget was used up while a candidate of the best record was still to be tried. Where it was not, the best
    /// record is minimal.
    pub spent: bool,
}
