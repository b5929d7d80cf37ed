//! An item of a suite as a check: its property, its machine, or the check of its name among those that are handed in.
#![tactic(auto)]

mod item_check;
mod laws;
mod named;
mod sharing;

pub use item_check::ItemCheck;
pub use laws::{an_item_notes_what_it_draws, typed_items_are_handed_in};
