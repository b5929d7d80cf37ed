//! Names, places in a text, values with their types, and the text that a value is printed as.
#![tactic(auto)]

mod chars;
mod equality;
mod name;
mod names;
mod place;
mod printing;
mod sharing;
mod sizing;
mod ty;
mod typing;
mod val;

pub use chars::Chars;
pub use equality::same;
pub use name::{Name, NameStop};
pub use names::Names;
pub use place::Place;
pub use printing::show;
pub use sizing::size;
pub use ty::{Ty, Tys};
pub use typing::has_type;
pub use val::{Val, Vals};
