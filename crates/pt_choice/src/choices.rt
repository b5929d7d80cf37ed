ghost use Rattle.std.specs.Prelude.{◌≡◌, ◌<◌, [], ◌∷◌, ◌++◌, length, IfOk, OnOk, OnErr};

use crate::{Choice, NoMemory};
use std::alloc::Global;
use std::hash::{Hash, Hasher};
use std::marker::Model;

/// A list of choices, which is what an example is made of.
#[derive(Debug, Drop)]
pub struct Choices {
    items: Vec<Choice>,
}

impl Model for Choices {
    ghost use Rattle.std.specs.Prelude.{List};
    ghost use Rattle.pt_choice.specs.declared.choice.Choice.{Choice};

    ghost Value = { List Choice };

    ghost view = { λ choices. choices.items.items };
}

impl From<Vec<Choice>> for Choices {
    ghost from_gives = { λ items choices. choices ≡ items.items };

    fn from(items: Vec<Choice>) -> Choices {
        Choices { items }
    }
}

impl PartialEq for Choices {
    ghost use Rattle.std.specs.Cmp.{partial_equiv_from_equiv};
    ghost use Rattle.std.specs.Cmp.Lexicographic.{lists_equiv};
    ghost use Rattle.pt_choice.specs.contracts.choice.ChoiceEq.TheImpl.Laws.{laws-law};
    ghost use Rattle.pt_choice.specs.Same.{same_choices};

    ghost eq = { same_choices };

    ghost laws = { partial_equiv_from_equiv (lists_equiv laws-law) };

    fn eq(&self, other: &Choices) -> bool {
        self.as_slice() == other.as_slice()
    }
}

impl Eq for Choices {
    ghost use Rattle.std.specs.Cmp.Lexicographic.{lists_equiv};
    ghost use Rattle.pt_choice.specs.contracts.choice.ChoiceEq.TheImpl.Laws.{laws-law};

    ghost laws = { lists_equiv laws-law };
}

impl Hash for Choices {
    ghost use Rattle.std.specs.Hash as fed;
    ghost use Rattle.pt_choice.specs.contracts.choice.ChoiceHash.TheImpl.Laws.{respects_eq-law};

    ghost hash_input = { fed.slice ⟦<Choice as Hash>⟧.hash_input };

    ghost respects_eq = { (fed.items_Alike (record { fed = respects_eq-law })).fed };

    fn hash<H: Hasher>(&self, state: &mut H) {
        self.as_slice().hash(state);
    }
}

impl Choices {
    /// No choices.
    pub fn empty(alloc: Global) -> Choices
        ensures { result ≡ [] }
    {
        Choices {
            items: Vec::new(alloc),
        }
    }

    pub fn len(&self) -> usize
        ensures { result ≡ length self.now }
    {
        self.items.len()
    }

    pub fn as_slice(&self) -> &[Choice]
        ensures { result.now ≡ self.now }
    {
        self.items.as_slice()
    }

    pub fn copy(&self) -> Result<Choices, NoMemory>
        ensures { IfOk result (λ choices. choices ≡ self.now) }
    {
        let mut items = Vec::new(*self.items.allocator());
        for choice in &self.items {
            items.push(choice.copy()?)?;
        }
        Ok(Choices { items })
    }

    pub fn push(&mut self, item: Choice) -> Result<(), NoMemory>
        ensures ok { OnOk result (self.new ≡ self.old ++ item ∷ []) }
        ensures err { OnErr result (self.new ≡ self.old) }
    {
        self.items.push(item)?;
        Ok(())
    }
}
