//! The choice that follows another, among those that a kind admits.
#![tactic(auto)]

mod above;

pub use above::next_admitted;
