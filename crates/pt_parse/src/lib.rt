//! The text of a suite, read: its tree, or its first fault.
//!
//! The text is cut into tokens, and these are read from left to right by functions that answer what the grammar's reading functions answer, of which pt_readings proves that
//! they give the one reading or the one first fault.
#![tactic(auto)]

mod fault;
mod laws;
mod suite;

pub use fault::SuiteFault;
pub use laws::{one_first_fault, one_suite, suite_or_fault};
pub use suite::read_suite;
