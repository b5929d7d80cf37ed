//! Lists of choices as texts to print and as bytes to store, and back.
//!
//! Both spellings come from strangers too, so each reader answers for every input: the list that it
//! spells, or the first place from which it can spell none.
#![tactic(auto)]

mod decoding;
mod encoding;
mod fault;
mod gathered;
mod groups;
mod header;
mod laws;
mod mark;
mod number;
mod printing;
mod reading;
mod unpacking;
mod word;

pub use decoding::{decode, decode_one};
pub use encoding::{MAX_STORED, encode};
pub use fault::WireFault;
pub use laws::{
    one_list, one_place, one_spelling, one_version, read_again, short_bytes, short_text,
};
pub use printing::{MAX_PRINTED, print_choices};
pub use reading::read_choices;
pub use unpacking::{Unpacked, unpack};
