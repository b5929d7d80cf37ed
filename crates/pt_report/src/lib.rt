//! The printed texts: what is said of a finding, of a run, of a replay, and where nothing is done.
#![tactic(auto)]

mod ending;
mod explaining;
mod listing;
mod made;
mod pieces;
mod refusal;
mod report;
mod shown;
mod sorts;

pub use explaining::explain_text;
pub use listing::listed;
pub use made::summary;
pub use refusal::{Refusal, Word, fixed_text, refusal_text};
pub use report::{block, replayed, tail};
pub use sorts::has_passed;
