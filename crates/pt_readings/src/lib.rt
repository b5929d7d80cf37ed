//! The laws of the grammar: tokens have one reading or one first fault, and the suite that they read as keeps its bounds.
#![tactic(auto)]

mod laws;

pub use laws::{one_fault, one_reading, reads_or_faults, suites_keep_bounds};
