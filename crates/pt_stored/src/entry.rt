ghost use Rattle.std.specs.Prelude.{◌≡◌, IfOk, MatchOption};
ghost use Rattle.pt_stored.specs.Example.{IsExample};
ghost use Rattle.pt_stored.specs.Entries.{IsShown};

use crate::digest::digest_text;
use crate::name::digests_of;
use pt_choice::{NoMemory, Octets, Seq};
use std::alloc::Global;

/// The most bytes of a value.
pub const MAX_VALUE: usize = 65_536;

/// A stored example, and the name of its file.
#[derive(Debug, Drop)]
pub struct Entry {
    pub file: Octets,
    /// The digest of the key, as 64 hexadecimal digits.
    pub key: Octets,
    /// The value.
    pub bytes: Octets,
}

/// Entries, in the order of their files' names.
pub type Entries = Seq<Entry>;

impl Entry {
    /// The file of this name with these bytes, where it is an example.
    pub fn of(alloc: Global, file: Octets, bytes: Octets) -> Result<Option<Entry>, NoMemory>
        ensures { IfOk result (λ found. MatchOption found (¬ IsExample file bytes) (λ entry. (entry.file ≡ file) × (entry.bytes ≡ bytes) × IsShown entry)) }
    {
        let Some((key, value)) = digests_of(file.as_slice()) else {
            return Ok(None);
        };
        if bytes.len() > MAX_VALUE || value != digest_text(bytes.as_slice()).as_slice() {
            return Ok(None);
        }
        let key = Octets::of(alloc, key)?;
        Ok(Some(Entry { file, key, bytes }))
    }
}
