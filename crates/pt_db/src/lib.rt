//! The database of examples: values that are kept for keys in a folder, one file each.
//!
//! A save and a delete are done whole or not at all, also where the machine stops within them: what a crash leaves has the stored set
//! from before the call, or that with its one change.
#![tactic(auto)]

mod fault;
mod laws;
mod sharing;
mod store;

pub use fault::StoreFault;
pub use laws::{a_crash_leaves_either, what_rests_is_kept};
pub use store::{NotAttached, Store};
