ghost use Rattle.std.specs.Prelude.{◌≡◌, [], ◌∷◌, ◌++◌, length, replicate, IfOk, OnOk, OnErr};

use crate::NoMemory;
use std::alloc::Global;
use std::hash::{Hash, Hasher};
use std::marker::Model;

/// A list of bytes, as a text to print or a file's content.
#[derive(Debug, Drop)]
pub struct Octets {
    items: Vec<u8>,
}

impl Model for Octets {
    ghost use Rattle.std.specs.Prelude.{List, ℕ};

    ghost Value = { List ℕ };

    ghost view = { λ octets. octets.items.items };
}

impl From<Vec<u8>> for Octets {
    ghost from_gives = { λ items octets. octets ≡ items.items };

    fn from(items: Vec<u8>) -> Octets {
        Octets { items }
    }
}

impl PartialEq for Octets {
    ghost use Rattle.std.specs.Prelude.{nat_eq};
    ghost use Rattle.std.specs.Cmp.{partial_equiv_from_equiv};
    ghost use Rattle.std.specs.Cmp.Lexicographic.{pointwise, nat_list_eq_equiv};

    ghost eq = { pointwise nat_eq };

    ghost laws = { partial_equiv_from_equiv nat_list_eq_equiv };

    fn eq(&self, other: &Octets) -> bool {
        self.as_slice() == other.as_slice()
    }
}

impl Eq for Octets {
    ghost use Rattle.std.specs.Cmp.Lexicographic.{nat_list_eq_equiv};

    ghost laws = { nat_list_eq_equiv };
}

impl Hash for Octets {
    ghost use Rattle.std.specs.Prelude.{nat_eq};
    ghost use Rattle.std.specs.Cmp.Lexicographic.{bytes_decides};
    ghost use Rattle.std.specs.Hash.{same_Alike};
    ghost use Rattle.pt_choice.specs.Hashing.{octets_input};

    ghost hash_input = { octets_input };

    ghost respects_eq = { (same_Alike octets_input bytes_decides).fed };

    fn hash<H: Hasher>(&self, state: &mut H) {
        state.write_usize(self.len());
        state.write(self.as_slice());
    }
}

impl Octets {
    /// No bytes.
    pub fn empty(alloc: Global) -> Octets
        ensures { result ≡ [] }
    {
        Octets {
            items: Vec::new(alloc),
        }
    }

    /// A copy of these bytes.
    pub fn of(alloc: Global, from: &[u8]) -> Result<Octets, NoMemory>
        ensures { IfOk result (λ octets. octets ≡ from.now) }
    {
        let items = Vec::from_slice(alloc, from)?;
        Ok(Octets { items })
    }

    /// This many zero bytes.
    pub(crate) fn zeros(alloc: Global, count: u8) -> Result<Octets, NoMemory>
        ensures { IfOk result (λ octets. octets ≡ replicate count 0) }
    {
        let items = vec![in alloc; 0; usize::from(count)]?;
        Ok(Octets { items })
    }

    pub fn len(&self) -> usize
        ensures { result ≡ length self.now }
    {
        self.items.len()
    }

    pub fn as_slice(&self) -> &[u8]
        ensures { result.now ≡ self.now }
    {
        self.items.as_slice()
    }

    pub fn copy(&self) -> Result<Octets, NoMemory>
        ensures { IfOk result (λ octets. octets ≡ self.now) }
    {
        Octets::of(*self.items.allocator(), self.items.as_slice())
    }

    pub fn push(&mut self, item: u8) -> Result<(), NoMemory>
        ensures ok { OnOk result (self.new ≡ self.old ++ item ∷ []) }
        ensures err { OnErr result (self.new ≡ self.old) }
    {
        self.items.push(item)?;
        Ok(())
    }
}
