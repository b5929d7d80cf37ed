ghost use Rattle.std.specs.Prelude.{◌≡◌, ◌==◌, [], ◌∷◌, ◌++◌, take, length, OnOk, OnErr, None};
ghost use Rattle.std.specs.Cmp.Lexicographic.{pointwise};
ghost use Rattle.std_collections.specs.Map.{lookup};

use indexmap::IndexMap;
use pt_choice::NoMemory;
use pt_val::Name;
use std::alloc::Global;
use std::marker::Model;

/// Names with the numbers of their types, the newest last. The names are lent by the suite.
#[derive(Drop)]
pub(crate) struct Table<'a> {
    numbers: IndexMap<&'a [u8], usize>,
}

impl<'a> Model for Table<'a> {
    ghost use Rattle.std.specs.Prelude.{List, ℕ};
    ghost use Rattle.pt_check.specs.Tables.{named};

    ghost Value = { List (List ℕ × ℕ) };

    ghost view = { λ table. named table.numbers.entries };
}

impl<'a> Table<'a> {
    pub(crate) fn empty(alloc: Global) -> Table<'a>
        ensures { result ≡ [] }
    {
        Table {
            numbers: IndexMap::new(alloc),
        }
    }

    pub(crate) fn len(&self) -> usize
        ensures { result ≡ length self.now }
    {
        self.numbers.len()
    }

    /// The number of the name's type.
    pub(crate) fn find(&self, name: &Name) -> Option<usize>
        ensures { result ≡ lookup (pointwise ◌==◌ name.now) self.now }
    {
        self.numbers.get(name.as_slice()).copied()
    }

    /// One more name, which is not there yet.
    pub(crate) fn enter(&mut self, name: &'a Name, number: usize) -> Result<(), NoMemory>
        requires { lookup (pointwise ◌==◌ name.now) self.old ≡ None }
        ensures ok { OnOk result (self.new ≡ self.old ++ (name.now, number) ∷ []) }
        ensures err { OnErr result (self.new ≡ self.old) }
    {
        self.numbers.insert(name.as_slice(), number)?;
        Ok(())
    }

    /// Keeps the oldest `len` names, and all of them where there are no more.
    pub(crate) fn cut(&mut self, len: usize)
        ensures { self.new ≡ take len self.old }
    {
        self.numbers.truncate(len);
    }
}
