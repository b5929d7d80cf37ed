//! The machine as a tester sees it: its command line, its files, its folders and its outputs.
//!
//! A folder is a disk over a `FileSystem`, whose calls are those of the machine; `RealFileSystem` passes them on.
#![tactic(auto)]

mod command_line;
mod file_system;
mod folder;
mod folder_disk;
mod folder_path;
mod listing;
mod outcome;
mod real_file_system;
mod real_files;
mod std_sink;
mod transfer;

pub use command_line::words;
pub use file_system::FileSystem;
pub use folder_disk::FolderDisk;
pub use real_file_system::{Lock, RealFileSystem};
pub use real_files::RealFiles;
pub use std_sink::StdSink;
