ghost use Rattle.std.specs.Prelude.{◌≡◌, ◌↔◌, false, IsTrue, IfOk};
ghost use Rattle.std.specs.List.{list_all};
ghost use Rattle.pt_val.specs.Name.{is_name, is_name_byte};

use pt_choice::{NoMemory, Octets};
use std::alloc::Global;
use std::hash::{Hash, Hasher};
use std::marker::Model;

/// A name that a suite gives to an item, a variable or a bundle.
///
/// It is a lower-case letter and at most 39 lower-case letters, digits and underscores after it, so it
/// is safe as a part of a file's name and needs no escape in a report.
#[derive(Debug, Drop)]
pub struct Name {
    bytes: Octets,
}

impl Model for Name {
    ghost use Rattle.std.specs.Prelude.{List, ℕ, IsTrue};
    ghost use Rattle.pt_val.specs.Name.{is_name};

    ghost Value = { List ℕ };

    ghost view = { λ name. name.bytes };

    ghost invariant = { λ name. IsTrue (is_name name.bytes) };
}

impl PartialEq for Name {
    ghost use Rattle.std.specs.Prelude.{nat_eq};
    ghost use Rattle.std.specs.Cmp.{partial_equiv_from_equiv};
    ghost use Rattle.std.specs.Cmp.Lexicographic.{pointwise, nat_list_eq_equiv};

    ghost eq = { pointwise nat_eq };

    ghost laws = { partial_equiv_from_equiv nat_list_eq_equiv };

    fn eq(&self, other: &Name) -> bool {
        self.bytes == other.bytes
    }
}

impl Eq for Name {
    ghost use Rattle.std.specs.Cmp.Lexicographic.{nat_list_eq_equiv};

    ghost laws = { nat_list_eq_equiv };
}

impl Hash for Name {
    ghost use Rattle.std.specs.Cmp.Lexicographic.{bytes_decides};
    ghost use Rattle.std.specs.Hash.{same_Alike};
    ghost use Rattle.pt_choice.specs.Hashing.{octets_input};

    ghost hash_input = { octets_input };

    ghost respects_eq = { (same_Alike octets_input bytes_decides).fed };

    fn hash<H: Hasher>(&self, state: &mut H) {
        self.bytes.hash(state);
    }
}

/// Why a text gives no name.
#[derive(Clone, Copy, Debug, PartialEq, Eq)]
pub enum NameStop {
    /// The text has not the form of a name.
    NotAName,
    /// There was no memory for the name.
    NoMemory,
}

impl From<NoMemory> for NameStop {
    ghost use Rattle.std.specs.Prelude.{◌≡◌};
    ghost use Rattle.pt_val.specs.declared.name.NameStop.TheVariants.{NoMemory};

    ghost from_gives = { λ _ stop. stop ≡ NoMemory };

    fn from(_: NoMemory) -> NameStop {
        NameStop::NoMemory
    }
}

impl Name {
    pub fn of(alloc: Global, text: &str) -> Result<Name, NameStop>
        ensures name { IfOk result (λ name. name ≡ text.now) }
        ensures form { IfOk result (λ _. IsTrue (is_name text.now)) }
        ensures refused { (result ≡ Err NameStop.NotAName) ↔ (is_name text.now ≡ false) }
    {
        Name::of_bytes(alloc, text.as_bytes())
    }

    /// The name of these bytes, as they stand in a text that is read byte by byte.
    pub fn of_bytes(alloc: Global, text: &[u8]) -> Result<Name, NameStop>
        ensures name { IfOk result (λ name. name ≡ text.now) }
        ensures form { IfOk result (λ _. IsTrue (is_name text.now)) }
        ensures refused { (result ≡ Err NameStop.NotAName) ↔ (is_name text.now ≡ false) }
    {
        if !is_name(text) {
            return Err(NameStop::NotAName);
        }
        let bytes = Octets::of(alloc, text)?;
        Ok(Name { bytes })
    }

    pub fn as_slice(&self) -> &[u8]
        ensures same { result.now ≡ self.now }
        ensures form { IsTrue (is_name self.now) }
    {
        self.bytes.as_slice()
    }

    pub fn copy(&self) -> Result<Name, NoMemory>
        ensures { IfOk result (λ name. name ≡ self.now) }
    {
        let bytes = self.bytes.copy()?;
        Ok(Name { bytes })
    }
}

fn is_name(bytes: &[u8]) -> bool
    ensures { result ≡ is_name bytes.now }
{
    match bytes.split_first() {
        Some((first, rest)) => first.is_ascii_lowercase()
            && are_name_bytes(rest)
            && rest.len() <= 39,
        None => false,
    }
}

fn are_name_bytes(bytes: &[u8]) -> bool
    ensures { result ≡ list_all is_name_byte bytes.now }
{
    bytes.iter().all(is_name_byte)
}

fn is_name_byte(byte: &u8) -> bool
    ensures { result ≡ is_name_byte byte.now }
{
    matches!(*byte, b'a'..=b'z' | b'0'..=b'9' | b'_')
}
