//! The one call that the `main` of a tester makes.
#![tactic(auto)]

mod testing;

pub use testing::{OUT_OF_MEMORY, tester};
