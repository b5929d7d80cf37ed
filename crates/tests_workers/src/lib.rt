//! The tests of blocks of runs and of replays, on one worker and on several.
//!
//! That two workers really run at one time is shown here alone: no contract says it.
#![tactic(auto)]

#[cfg(test)]
mod always;
#[cfg(test)]
mod bounded;
#[cfg(test)]
mod expect;
#[cfg(test)]
mod lists;
#[cfg(test)]
mod meeting;
#[cfg(test)]
mod runs;
#[cfg(test)]
mod same;
#[cfg(test)]
mod searches;
