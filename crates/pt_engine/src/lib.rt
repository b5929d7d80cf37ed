//! What is found out of one check: its stored lists first, then its runs, and of a failure the reduction.
//!
//! The outcome is said over lists of records, with no worker and no block in it, so it is the same whatever the number of workers. Only the
//! reduction may depend on it.
#![tactic(auto)]

mod engine;
mod laws;
mod outcome;
mod runs;
mod sharing;
mod stored;
mod tally;

pub use engine::examine;
pub use laws::{an_outcome_is_one, findings_agree};
pub use outcome::{Decision, Outcome};
