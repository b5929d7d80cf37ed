//! The outside as the tester sees it: files that are read, and a sink that is written.
//!
//! Both count their faults, so that a caller's refusal can be traced to a call that failed, and both may tell
//! what they hold. The forms in memory tell everything; files and outputs of the machine tell nothing.
#![tactic(auto)]

mod files;
mod memory_files;
mod memory_sink;
mod reading;
mod sink;

pub use files::{Files, IoFailed};
pub use memory_files::{Calls, MemoryFiles, NamedFiles};
pub use memory_sink::MemorySink;
pub use reading::{ReadStop, read_whole};
pub use sink::{Sink, write_all};
