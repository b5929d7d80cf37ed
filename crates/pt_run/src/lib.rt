//! The program's one call, which reads the words and does what they ask for; here are the commands on suites.
#![tactic(auto)]

mod again;
mod entry;
mod explaining;
mod laws;
mod loading;
mod running;
mod showing;

pub use again::what_is_shown_is_found_again;
pub use entry::top;
pub use laws::{
    a_printed_failure_replays_to_itself, what_can_be_done_is_done, what_survives_a_crash,
    workers_change_no_finding,
};
