//! A machine of a suite as a check.
#![tactic(auto)]

mod choosing;
mod enabling;
mod holding;
mod laws;
mod machine;
mod sharing;
mod starting;
mod stepping;
mod valuing;

pub use laws::a_machine_notes_its_steps;
pub use machine::MachineCheck;
