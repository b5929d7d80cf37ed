ghost use Rattle.std.specs.Prelude.{◌≡◌, [], ◌∷◌, ◌++◌, length, IfOk, OnOk, OnErr};

use pt_choice::NoMemory;
use std::alloc::Global;
use std::marker::Model;

/// A list of characters, which is what a text is.
///
/// A text is drawn and indexed character by character, so it is not kept as UTF-8.
#[derive(Debug, Drop)]
pub struct Chars {
    items: Vec<char>,
}

impl Model for Chars {
    ghost use Rattle.std.specs.Prelude.{List, ℕ};

    ghost Value = { List ℕ };

    ghost view = { λ chars. chars.items.items };
}

impl Chars {
    /// No characters.
    pub fn empty(alloc: Global) -> Chars
        ensures { result ≡ [] }
    {
        Chars {
            items: Vec::new(alloc),
        }
    }

    /// A copy of these characters.
    pub fn of(alloc: Global, from: &[char]) -> Result<Chars, NoMemory>
        ensures { IfOk result (λ chars. chars ≡ from.now) }
    {
        let items = Vec::from_slice(alloc, from)?;
        Ok(Chars { items })
    }

    pub fn len(&self) -> usize
        ensures { result ≡ length self.now }
    {
        self.items.len()
    }

    pub fn as_slice(&self) -> &[char]
        ensures { result.now ≡ self.now }
    {
        self.items.as_slice()
    }

    pub fn copy(&self) -> Result<Chars, NoMemory>
        ensures { IfOk result (λ chars. chars ≡ self.now) }
    {
        Chars::of(*self.items.allocator(), self.items.as_slice())
    }

    pub fn push(&mut self, item: char) -> Result<(), NoMemory>
        ensures ok { OnOk result (self.new ≡ self.old ++ item ∷ []) }
        ensures err { OnErr result (self.new ≡ self.old) }
    {
        self.items.push(item)?;
        Ok(())
    }
}
