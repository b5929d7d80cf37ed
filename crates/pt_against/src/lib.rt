//! A thing under test, held against a model of it: both are given the same commands, and are to answer them alike.
#![tactic(auto)]

mod against;
mod beside;

pub use against::Against;
pub use beside::Beside;
