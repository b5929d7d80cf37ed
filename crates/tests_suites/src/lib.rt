//! The tests of suites.
//!
//! They stand apart from the crates that they test, since a crate with tests is proved twice.
#![tactic(auto)]

#[cfg(test)]
mod manual;
mod samples;

pub use samples::{manual_is_sound, typed_samples, untyped_samples};
