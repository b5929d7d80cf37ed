ghost use Rattle.std.specs.Prelude.{◌≡◌, IfOk};

use pt_choice::{Kind, NoMemory};
use std::alloc::Global;
use std::marker::Model;

/// A list of kinds.
#[derive(Debug, Drop)]
pub struct Kinds {
    items: Vec<Kind>,
}

impl Model for Kinds {
    ghost use Rattle.std.specs.Prelude.{List};
    ghost use Rattle.pt_choice.specs.declared.kind.Shape.{Shape};

    ghost Value = { List Shape };

    ghost view = { λ kinds. kinds.items.items };
}

impl Kinds {
    /// A copy of these kinds.
    pub fn of(alloc: Global, from: &[Kind]) -> Result<Kinds, NoMemory>
        ensures { IfOk result (λ kinds. kinds ≡ from.now) }
    {
        let items = Vec::from_slice(alloc, from)?;
        Ok(Kinds { items })
    }

    pub fn as_slice(&self) -> &[Kind]
        ensures { result.now ≡ self.now }
    {
        self.items.as_slice()
    }
}
