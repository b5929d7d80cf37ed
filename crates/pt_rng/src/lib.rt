//! Choices made from random words.
//!
//! A run of a check is numbered, and its number and a seed alone determine every answer that it is
//! given: run 0 gets the simplest choices, and run i those made from the words of stream i.
#![tactic(auto)]

mod sharing;
mod supply;
mod words;

pub use supply::Supply;
