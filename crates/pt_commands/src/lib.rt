//! What the words of a command line ask for, the commands that need no suite, and what is said where nothing else is to be done.
#![tactic(auto)]

mod command;
mod finish;
mod making;
mod marking;
mod message;
mod storing;
mod telling;

pub use command::{Command, read_command};
pub use finish::Finish;
pub use making::make;
pub use message::Message;
pub use storing::list;
pub use telling::tell;
