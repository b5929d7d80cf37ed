//! The tests of reading a suite's text: its tokens, and the suite or the first fault.
//!
//! They stand apart from the crates that they test, since a crate with tests is proved twice.
#![tactic(auto)]

#[cfg(test)]
mod checked;
#[cfg(test)]
mod expect;
#[cfg(test)]
mod faults;
#[cfg(test)]
mod item_faults;
#[cfg(test)]
mod long;
#[cfg(test)]
mod made;
#[cfg(test)]
mod read;
#[cfg(test)]
mod refused;
#[cfg(test)]
mod shown;
#[cfg(test)]
mod suites;
#[cfg(test)]
mod token_faults;
#[cfg(test)]
mod tokens;
#[cfg(test)]
mod typing_faults;
#[cfg(test)]
mod words;
