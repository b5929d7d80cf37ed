//! The tests of the reducer and of the engine, with one worker and with four.
#![tactic(auto)]

#[cfg(test)]
mod always;
#[cfg(test)]
mod bounded;
#[cfg(test)]
mod examined;
#[cfg(test)]
mod expect;
#[cfg(test)]
mod lists;
#[cfg(test)]
mod never;
pub mod number;
#[cfg(test)]
mod tail;
pub mod two;
#[cfg(test)]
mod wide;
