//! The items of a suite, each in its turn: what is found out of each, and what is written of it.
//!
//! What an item's turn comes to is said of one item alone. The turns of several items are a chain of such turns, and how the chain
//! ended is said over it: all items had their turns, or the output failed, or there was no memory.
#![tactic(auto)]

mod again;
mod examining;
mod laws;
mod one_turn;
mod reporting;
mod settling;
mod turns;

pub use again::what_is_shown_is_found_again;
pub use laws::{
    a_crash_leaves_first_edits, a_run_loses_and_invents_nothing, an_exit_keeps_what_was_shown,
    an_exit_leaves_the_turns, sound_items_are_ready, what_is_shown_is_stored,
    workers_change_no_finding,
};
pub use reporting::{Reported, report, status_of};
pub use turns::examine_all;
