//! The tests of choices, words, spellings, values, cases, plans and the outside, with the checks that only tests need.
//!
//! They stand apart from the crates that they test, since a crate with tests is proved twice.
#![tactic(auto)]

#[cfg(test)]
mod above;
#[cfg(test)]
mod cases;
#[cfg(test)]
mod checks;
#[cfg(test)]
mod expect;
#[cfg(test)]
mod guided;
#[cfg(test)]
mod keys;
#[cfg(test)]
mod kinds;
#[cfg(test)]
mod lists;
#[cfg(test)]
mod names;
#[cfg(test)]
mod orders;
#[cfg(test)]
mod outside;
#[cfg(test)]
mod plain;
#[cfg(test)]
mod plans;
#[cfg(test)]
mod records;
#[cfg(test)]
mod rising;
#[cfg(test)]
mod sample;
#[cfg(test)]
mod small;
#[cfg(test)]
mod spellings;
#[cfg(test)]
mod stored;
#[cfg(test)]
mod supplies;
#[cfg(test)]
mod values;
