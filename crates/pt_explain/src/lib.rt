//! Which choices of a failure matter.
//!
//! Each choice of a failing record is replaced by a few others, one at a time, and the lists are replayed. A choice is free
//! where every replacement fails alike, and bound where one does not. Nothing is said of replacements that are not tried.
#![tactic(auto)]

mod effect;
mod explained;
mod mark;
mod other;
mod place;
mod sharing;

pub use explained::{Explained, explain};
pub use mark::{Mark, Marks};
pub use other::others;
