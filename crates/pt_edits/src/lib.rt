//! What an item's turn does to the database: what is stored under its name is read, and then edited.
//!
//! The edits are a list in memory before the first of them is made, so that want of memory comes before any change, and so that
//! what a crash leaves can be said of the list alone: the stored set after some first ones of it.
#![tactic(auto)]

mod answer;
mod asking;
mod edit;
mod laws;
mod making;
mod reading;
mod stop;
mod stored;

pub use asking::{edits_of, lists_of};
pub use edit::{Edit, Edits};
pub use laws::{
    a_crash_leaves_first_edits, a_shown_failure_is_stored, edits_of_one_key_leave_others,
    nothing_is_invented, nothing_is_lost,
};
pub use making::make_edits;
pub use reading::{Reading, Readings};
pub use stop::{StoreStop, TwoValues};
pub use stored::read_stored;
