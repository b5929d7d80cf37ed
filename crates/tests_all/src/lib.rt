//! The tests of surveys: all that the runs of a check fail at, with one worker and with several.
#![tactic(auto)]

#[cfg(test)]
mod always;
#[cfg(test)]
mod expect;
#[cfg(test)]
mod recount;
pub mod rule;
#[cfg(test)]
mod surveyed;
