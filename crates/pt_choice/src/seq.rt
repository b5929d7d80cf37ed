ghost use Rattle.std.specs.Prelude.{◌≡◌, [], ◌∷◌, ◌++◌, length, OnOk, OnErr};

use crate::NoMemory;
use std::alloc::Global;
use std::marker::Model;
use std::vec::IntoIter;

/// A list of any type, through which a type may hold itself.
///
/// A value that holds a list of values of its own type, as a tree its subtrees, holds them by a `Seq`.
#[derive(Debug, Drop)]
pub struct Seq<T> {
    items: Vec<T>,
}

impl<T> Model for Seq<T> {
    ghost use Rattle.std.specs.Prelude.{List};
    ghost use Rattle.std.specs.Coded.{coded_list};

    ghost Value = { List T };

    ghost coded = { coded_list T.code };

    ghost view = { λ seq. seq.items.items };
}

impl<T> Seq<T> {
    /// No items.
    pub fn empty(alloc: Global) -> Seq<T>
        ensures { result ≡ [] }
    {
        Seq {
            items: Vec::new(alloc),
        }
    }

    /// The allocator that the list grows by, for a copy of its items.
    pub fn allocator(&self) -> Global {
        *self.items.allocator()
    }

    pub fn len(&self) -> usize
        ensures { result ≡ length self.now }
    {
        self.items.len()
    }

    pub fn as_slice(&self) -> &[T]
        ensures { result.now ≡ self.now }
    {
        self.items.as_slice()
    }
}

impl<T: Drop> Seq<T> {
    pub fn push(&mut self, item: T) -> Result<(), NoMemory>
        ensures ok { OnOk result (self.new ≡ self.old ++ item ∷ []) }
        ensures err { OnErr result (self.new ≡ self.old) }
    {
        self.items.push(item)?;
        Ok(())
    }
}

impl<T: Drop> IntoIterator for Seq<T> {
    ghost use Rattle.std.specs.Prelude.{◌^◌, ◌<◌};
    ghost use Rattle.std.specs.Iterator.Runs.{EveryRun, ItemsAre};
    ghost use Rattle.std.specs.Vec.Iter.{into_iter_steps, into_iter_items, into_iter_len};
    ghost use Rattle.std.specs.declared.alloc.Global.{Global};

    type Item = T;

    type IntoIter = IntoIter<T>;

    /// Gives the items in order.
    ghost into_iter_gives = { λ seq items. (into_iter_items items ≡ seq) × (into_iter_len items ≡ length seq) × (into_iter_len items < 2 ^ 64)
        × EveryRun (into_iter_steps {X = T} {Z = Global}) (λ p. ItemsAre p (into_iter_items p.from)) };

    fn into_iter(self) -> IntoIter<T> {
        self.items.into_iter()
    }
}
