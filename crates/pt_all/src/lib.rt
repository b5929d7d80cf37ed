//! All that the runs of one check fail at: they go on after a failure, and each origin is shown once, made simpler for itself.
//!
//! Which runs are made and at which origins they fail is said over lists of records, with no worker and no block in it, so it is the
//! same whatever the number of workers. Only the reductions may depend on it.
#![tactic(auto)]

mod firsts;
mod laws;
mod reductions;
mod sharing;
mod survey;
mod tally;
mod window;

pub use laws::{each_origin_is_shown_once, no_failure_is_passed_over, surveys_agree};
pub use survey::survey_check;
