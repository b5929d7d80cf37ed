//! Shrink passes: the simpler lists that are tried in place of the best one.
//!
//! Each pass is a list of lists, made from the record's spans and choices, and a walk hands them out in order, one at a
//! time. It notes where it stands and makes a list only when it is asked for, since most walks end at one of their first
//! lists.
#![tactic(auto)]

mod cursor;
mod delete_span;
mod descend;
mod edit;
mod lower;
mod lower_delete;
mod lower_octets;
mod lower_one;
mod make;
mod pairs;
mod pass;
mod region;
mod step;
mod swap_siblings;
mod walk;

pub use cursor::{Cursor, Found};
pub use edit::{Change, Edit};
pub use pass::{PASSES, Pass};
pub use walk::Walk;
