ghost use Rattle.std.specs.Prelude.{◌≡◌, ◌↔◌, ◌≤◌, IsTrue, [], ◌∷◌, ◌++◌, length, slice_get, OnOk, OnErr, MatchOption};
ghost use Rattle.std.specs.List.{Contains};
ghost use Rattle.pt_found.specs.Trail.{lists_of};

use indexmap::IndexMap;
use pt_choice::{Choices, NoMemory};
use std::alloc::Global;
use std::fmt::{Debug, Formatter};
use std::marker::Model;

/// The lists that a reduction tried, in order, each with whether its record became the best one. A list is in it once.
///
/// It is kept as a table, so that a list is looked up under one hash.
#[derive(Drop)]
pub struct Trail {
    table: IndexMap<Choices, bool>,
}

impl Model for Trail {
    ghost use Rattle.std.specs.Prelude.{List};
    ghost use Rattle.pt_found.specs.Tried.{Tried, tried_in};

    ghost Value = { List Tried };

    ghost view = { λ trail. tried_in trail.table.entries };
}

impl Trail {
    /// No lists. Takes no memory.
    pub fn empty(alloc: Global) -> Trail
        ensures { result ≡ [] }
    {
        Trail {
            table: IndexMap::new(alloc),
        }
    }

    pub fn len(&self) -> usize
        ensures { result ≡ length self.now }
    {
        self.table.len()
    }

    /// Whether the list was tried. Takes no memory.
    pub fn has(&self, list: &Choices) -> bool
        ensures { IsTrue result ↔ Contains (lists_of self.now) list.now }
    {
        self.table.contains_key(list)
    }

    /// The list that was tried at this place, counted from 0, and whether it was accepted.
    pub fn at(&self, place: usize) -> Option<(&Choices, bool)>
        ensures { MatchOption result (length self.now ≤ place)
            (λ tried. slice_get self.now place ≡ Some (record { list = tried.0.now; accepted = tried.1 })) }
    {
        let (list, accepted) = self.table.get_index(place)?;
        Some((list, *accepted))
    }

    /// Adds a list at the end. Where memory runs out, the trail is as it was.
    pub fn add(&mut self, list: Choices, accepted: bool) -> Result<(), NoMemory>
        requires { ¬ Contains (lists_of self.old) list }
        ensures ok { OnOk result (self.new ≡ self.old ++ record { list = list; accepted = accepted } ∷ []) }
        ensures err { OnErr result (self.new ≡ self.old) }
    {
        self.table.insert(list, accepted)?;
        Ok(())
    }
}
