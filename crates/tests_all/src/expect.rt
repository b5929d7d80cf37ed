use std::fmt::Debug;
use std::process::Abort;

/// Ends the test unless this row of its table is as wanted. An error, as for want of memory, ends it too.
pub fn expect<E: Debug + PartialEq + Drop>(rt: &impl Abort, row: usize, holds: Result<bool, E>) {
    assert_eq!(rt; holds, Ok(true), "row {row}");
}
