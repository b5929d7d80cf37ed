//! What stands in a tester's list of checks.
#![tactic(auto)]

mod handed;

pub use handed::Handed;
