ghost use Rattle.std.specs.Prelude.{◌≡◌, ◌<◌, ◌≤◌, [], ◌∷◌, ◌++◌, List, length, OnOk, MatchResult};
ghost use Rattle.pt_choice.specs.declared.choice.Choice.{Choice};
ghost use Rattle.pt_wire.specs.Answer.{IsGathered};

use crate::WireFault;
use pt_choice::{Choice, Choices, NoMemory};
use std::alloc::Global;

const MOST_CHOICES: usize = 256;

/// The choices that were read so far. No more are kept than a list may have.
#[derive(Debug, Drop)]
pub(crate) struct Gathered {
    list: Choices,
    too_long: bool,
}

impl Gathered {
    /// No choices.
    pub(crate) fn empty(alloc: Global) -> Gathered
        ensures { IsGathered [] result }
    {
        Gathered {
            list: Choices::empty(alloc),
            too_long: false,
        }
    }

    /// Keeps one more choice, where a list may have it.
    pub(crate) fn gather(&mut self, choice: Choice) -> Result<(), NoMemory>
        ensures { (all : List Choice) → IsGathered all self.old → OnOk result (IsGathered (all ++ choice ∷ []) self.new) }
    {
        if self.list.len() < MOST_CHOICES {
            self.list.push(choice)
        } else {
            self.too_long = true;
            Ok(())
        }
    }

    /// The list, if it is no longer than a list may be.
    pub(crate) fn into_list(self) -> Result<Choices, WireFault>
        ensures { (all : List Choice) → IsGathered all self → MatchResult result
            (λ list. (list ≡ all) × (length all ≤ 256)) (λ why. (why ≡ WireFault.TooLong) × (256 < length all)) }
    {
        if self.too_long {
            return Err(WireFault::TooLong);
        }
        Ok(self.list)
    }
}
