//! The tests of expressions: their values, their faults, and what they cost.
//!
//! They stand apart from the crates that they test, since a crate with tests is proved twice.
#![tactic(auto)]

#[cfg(test)]
mod costs;
#[cfg(test)]
mod deep;
#[cfg(test)]
mod environments;
#[cfg(test)]
mod evaluates;
#[cfg(test)]
mod expect;
#[cfg(test)]
mod functions;
#[cfg(test)]
mod operators;
#[cfg(test)]
mod plain;
#[cfg(test)]
mod sample;
