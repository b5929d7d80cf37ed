//! One flat folder as a disk that may stop at any moment, and such a disk in memory.
//!
//! A disk that tells what it holds tells a history: the folder at each moment so far. What reads give and what a crash
//! may leave are read off that history, so that a layer above can promise what survives a crash. A folder of the
//! machine tells nothing, and then only the count of faults is known.
#![tactic(auto)]

mod change;
mod disk;
mod history;
mod image;
mod laws;
mod memory_disk;

pub use change::Change;
pub use disk::{Disk, DiskFailed, DiskStop, FileNames};
pub use image::Keep;
pub use laws::{
    a_delete_leaves_old_or_new, a_save_leaves_old_or_new, a_settle_adds_no_image,
    a_settled_folder_stays, an_untouched_name_stays, reads_are_an_image,
};
pub use memory_disk::{Calls, MemoryDisk, NamedFiles};
