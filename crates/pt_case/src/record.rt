ghost use Rattle.std.specs.Prelude.{◌≤◌, length, All};
ghost use Rattle.std.proofs.Props.{props};
ghost use Rattle.pt_choice.specs.Limits.{IsInLimits, IsInLimits-prop};
ghost use Rattle.pt_case.specs.Placed.{ArePlaced};

use crate::{Ending, Notes, Spans};
use pt_choice::{Choices, NoMemory, Seq};

/// What a run leaves: the choices that it was given, with the spans and the notes that were made of them, and how it
/// ended.
#[derive(Debug, Drop)]
pub struct Record {
    pub choices: Choices,
    pub spans: Spans,
    pub notes: Notes,
    pub ending: Ending,
    pub ghost few_choices: { length choices ≤ 256 },
    pub ghost in_limits: { All IsInLimits choices } by { Prim.hlevel (props, IsInLimits-prop) },
    pub ghost few_spans: { length spans ≤ 1024 },
    pub ghost placed: { ArePlaced (length choices) spans },
}

/// A list of records.
pub type Records = Seq<Record>;

/// A list of lists of choices.
pub type ChoiceLists = Seq<Choices>;

impl Record {
    ghost use Rattle.std.specs.Prelude.{◌≡◌, IfOk};

    pub fn copy(&self) -> Result<Record, NoMemory>
        ensures { IfOk result (λ rec. rec ≡ self.now) }
    {
        let choices = self.choices.copy()?;
        let spans = self.spans.copy()?;
        let notes = self.notes.copy()?;
        Ok(Record {
            choices,
            spans,
            notes,
            ending: self.ending,
        })
    }
}
