//! A property of a suite as a check.
#![tactic(auto)]

mod laws;
mod property;
mod sharing;

pub use laws::a_property_notes_what_it_draws;
pub use property::PropertyCheck;
