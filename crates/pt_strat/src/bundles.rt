ghost use Rattle.std.specs.Prelude.{◌≡◌, [], ◌∷◌, ◌++◌, OnOk, OnErr};
ghost use Rattle.pt_strat.specs.Bundles.{entries_of, place_of, with_entry, given_to};

use pt_choice::{NoMemory, Seq};
use pt_val::{Name, Val, Vals};
use std::alloc::Global;
use std::marker::Model;

/// A bundle with its entries, the oldest first.
#[derive(Debug, Drop)]
pub struct Bundle {
    pub name: Name,
    pub entries: Vals,
}

/// The bundles of a machine.
#[derive(Debug, Drop)]
pub struct Bundles {
    items: Vec<Bundle>,
}

impl Model for Bundles {
    ghost use Rattle.std.specs.Prelude.{List};
    ghost use Rattle.std.specs.Coded.{codes};
    ghost use Rattle.pt_val.specs.contracts.val.Val as val;
    ghost use Rattle.pt_strat.specs.declared.bundles.Bundle.{Bundle};

    ghost Value = { List Bundle };

    ghost coded = { Prim.hlevel (codes, val.the_row.coded) };

    ghost view = { λ bundles. bundles.items.items };
}

impl Bundles {
    /// No bundles.
    pub fn empty(alloc: Global) -> Bundles
        ensures { result ≡ [] }
    {
        Bundles {
            items: Vec::new(alloc),
        }
    }

    pub fn as_slice(&self) -> &[Bundle]
        ensures { result.now ≡ self.now }
    {
        self.items.as_slice()
    }

    /// One more bundle, which has no entries.
    pub fn add(&mut self, alloc: Global, name: Name) -> Result<(), NoMemory>
        ensures ok { OnOk result (self.new ≡ self.old ++ record { name = name; entries = [] } ∷ []) }
        ensures err { OnErr result (self.new ≡ self.old) }
    {
        self.items.push(Bundle {
            name,
            entries: Seq::empty(alloc),
        })?;
        Ok(())
    }

    /// The entries of the bundle, and none where it is not there.
    pub fn entries(&self, name: &Name) -> &[Val]
        ensures { result.now ≡ entries_of name.now self.now }
    {
        entries_in(self.items.as_slice(), name)
    }

    /// Puts a value into the bundle. Where it is not there nothing changes.
    pub fn give(&mut self, name: &Name, value: Val) -> Result<(), NoMemory>
        ensures ok { OnOk result (self.new ≡ given_to name.now value self.old) }
        ensures err { OnErr result (self.new ≡ self.old) }
    {
        let place = place_of(self.items.as_slice(), name);
        if place < self.items.len() {
            self.items[place].put(value)?;
        }
        Ok(())
    }
}

impl Bundle {
    // One more entry.
    fn put(&mut self, value: Val) -> Result<(), NoMemory>
        ensures ok { OnOk result (self.new ≡ with_entry value self.old) }
        ensures err { OnErr result (self.new ≡ self.old) }
    {
        self.entries.push(value)
    }
}

// The number of the first bundle of this name, and how many there are where there is none.
fn place_of(bundles: &[Bundle], name: &Name) -> usize
    ensures { result ≡ place_of name.now bundles.now }
{
    let mut place = 0;
    for bundle in bundles {
        if *name == bundle.name {
            return place;
        }
        place += 1;
    }
    place
}

fn entries_in<'a>(bundles: &'a [Bundle], name: &Name) -> &'a [Val]
    ensures { result.now ≡ entries_of name.now bundles.now }
{
    for bundle in bundles {
        if *name == bundle.name {
            return bundle.entries.as_slice();
        }
    }
    &[]
}
