//! The tests of shrink passes, and of what a reduction leaves.
//!
//! They stand apart from the crates that they test, since a crate with tests is proved twice.
#![tactic(auto)]

#[cfg(test)]
mod made;
#[cfg(test)]
mod passes;
#[cfg(test)]
mod trails;
#[cfg(test)]
mod walks;
