//! Which files of a folder are stored examples, and what they are named.
//!
//! An example is a value that is kept for a key. It lies in a file of its own, whose name has the digests of both, so that what
//! is stored can be told from any other file by that file alone, also after a crash.
#![tactic(auto)]

mod digest;
mod entry;
mod name;
mod sharing;

pub use digest::{are_alike, digest_text, file_name};
pub use entry::{Entries, Entry, MAX_VALUE};
pub use name::digests_of;
