//! The tests of the program's one call over memory that tells all: where its disk stops, what it calls and keeps, and its workers.
#![tactic(auto)]

#[cfg(test)]
mod both;
#[cfg(test)]
mod expect;
#[cfg(test)]
mod folder;
#[cfg(test)]
mod meeting;
#[cfg(test)]
mod rows;
#[cfg(test)]
mod script;
#[cfg(test)]
mod stops;
#[cfg(test)]
mod suites;
