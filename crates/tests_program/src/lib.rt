//! The tests of the program's one call, over files and an output in memory that fail.
//!
//! What the program does where its outside does not fail is shown by the program itself.
#![tactic(auto)]

#[cfg(test)]
mod program;
#[cfg(test)]
mod samples;
