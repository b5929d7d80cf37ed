use pt_case::Record;

/// Whether the two records show the same of runs that note nothing.
pub fn are_same(one: &Record, other: &Record) -> bool {
    one.choices == other.choices
        && one.spans.as_slice() == other.spans.as_slice()
        && one.notes.len() == other.notes.len()
        && one.ending == other.ending
}
