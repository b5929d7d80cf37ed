//! The tests of what is said of a failure's choices.
#![tactic(auto)]

#[cfg(test)]
mod expect;
#[cfg(test)]
mod explained;
#[cfg(test)]
mod others;
