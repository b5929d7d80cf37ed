//! The tests of strategies that are written in code, and of properties and machines over them.
#![tactic(auto)]

#[cfg(test)]
mod door;
#[cfg(test)]
mod drawn;
#[cfg(test)]
mod expect;
#[cfg(test)]
mod functions;
#[cfg(test)]
mod lamp;
#[cfg(test)]
mod properties;
#[cfg(test)]
mod strategies;
