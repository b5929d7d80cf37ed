//! The tests of a suite's strategies and statements.
#![tactic(auto)]

#[cfg(test)]
mod bounds;
#[cfg(test)]
mod derived;
#[cfg(test)]
mod expect;
#[cfg(test)]
mod machines;
#[cfg(test)]
mod plain;
#[cfg(test)]
mod properties;
#[cfg(test)]
mod recursion;
#[cfg(test)]
mod spans;
#[cfg(test)]
mod statements;
