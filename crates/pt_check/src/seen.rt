ghost use Rattle.std.specs.Prelude.{◌≡◌, ◌==◌, true, not, [], ◌∷◌, ◌++◌, IfOk, OnOk};
ghost use Rattle.std.specs.Cmp.Lexicographic.{pointwise};
ghost use Rattle.std.specs.List.{list_any};
ghost use Rattle.pt_typing.specs.SuiteChecks.{fresh};
ghost use Rattle.pt_check.specs.Says.{Says};

use crate::TypeFault;
use indexmap::IndexSet;
use pt_ast::Ident;
use pt_choice::NoMemory;
use pt_val::Name;
use std::alloc::Global;
use std::marker::Model;

/// Names that were met, lent by the suite.
#[derive(Drop)]
pub(crate) struct Seen<'a> {
    names: IndexSet<&'a [u8]>,
}

impl<'a> Model for Seen<'a> {
    ghost use Rattle.std.specs.Prelude.{List, ℕ, map};

    ghost Value = { List (List ℕ) };

    ghost view = { λ seen. map (λ name. name.now) seen.names.keys };
}

impl<'a> Seen<'a> {
    pub(crate) fn none(alloc: Global) -> Seen<'a>
        ensures { result ≡ [] }
    {
        Seen {
            names: IndexSet::new(alloc),
        }
    }

    /// One more name, which may not have been met before.
    pub(crate) fn note(&mut self, given: &'a Ident) -> Result<(), TypeFault>
        ensures says { Says (fresh self.old given.now) tt result }
        ensures notes { OnOk result (self.new ≡ self.old ++ given.now.name ∷ []) }
    {
        let is_new = self.add(&given.name)?;
        if !is_new {
            return Err(TypeFault::Twice(given.at));
        }
        Ok(())
    }

    /// Whether the name was not there yet. It is there from now on.
    fn add(&mut self, name: &'a Name) -> Result<bool, NoMemory>
        ensures tells { IfOk result (λ is_new. list_any (pointwise ◌==◌ name.now) self.old ≡ not is_new) }
        ensures adds { IfOk result (λ is_new. is_new ≡ true → self.new ≡ self.old ++ name.now ∷ []) }
    {
        let is_new = self.names.insert(name.as_slice())?;
        Ok(is_new)
    }
}
