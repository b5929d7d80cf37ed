ghost use Rattle.std.specs.Prelude.{◌≡◌, ◌≢◌, ◌↔◌, true, [], length, is_some, IsSome, IfOk, OnOk, OnErr, IsErrOf};
ghost use Rattle.pt_choice.specs.Kind.{admits, AsksSmall};
ghost use Rattle.pt_case.specs.Source.{Listed, Fresh, Guided, kept_kinds};
ghost use Rattle.pt_choice.specs.Limits.{IsInLimits};
ghost use Rattle.pt_case.specs.Region.{innermost, spans_at};
ghost use Rattle.pt_case.specs.Refused.{kind_refused};
ghost use Rattle.pt_case.specs.State.{State, IsOver, IsFilled, Answered, Entered, new_state, after_leave, after_note, stopped_at};

use crate::answer_source::AnswerSource;
use crate::refused::Refused;
use crate::region::Region;
use crate::{Ending, Note, Notes, Record, Span, Spans, Stop};
use pt_choice::{Choice, Choices, Kind, NoMemory};
use pt_rng::Supply;
use pt_val::{Name, Val};
use std::alloc::Global;
use std::marker::Model;

/// The most choices of one case.
pub const MAX_CHOICES: usize = 256;

/// The most spans of one case.
pub const MAX_SPANS: usize = 1024;

/// One run of a check while it goes: where its answers come from, and what was made so far.
#[derive(Drop)]
pub struct Case {
    source: AnswerSource,
    choices: Vec<Choice>,
    regions: Vec<Region>,
    // The number of the innermost open span.
    innermost: Option<u16>,
    // Room for the spans of the record.
    spans: Vec<Span>,
    notes: Notes,
    refused: Option<Refused>,
}

impl Model for Case {
    ghost use Rattle.std.specs.Prelude.{◌≡◌, ◌≤◌, vec_len, vec_capacity};
    ghost use Rattle.std.specs.Coded.{codes};
    ghost use Rattle.pt_val.specs.contracts.val.Val as val;
    ghost use Rattle.pt_case.specs.State.{State};
    ghost use Rattle.pt_case.specs.Kept.{IsKept};
    ghost use Rattle.pt_case.specs.declared.case.TheConstants.{MAX_CHOICES, MAX_SPANS};

    ghost Value = { State };

    ghost coded = { Prim.hlevel (codes, val.the_row.coded) };

    ghost view = { λ case. record {
      left = case.source;
      choices = case.choices.items;
      regions = case.regions.items;
      notes = case.notes;
      refused = case.refused;
    } };

    ghost invariant = { λ case. (MAX_CHOICES ≤ vec_capacity case.choices) × (MAX_SPANS ≤ vec_capacity case.regions)
        × (MAX_SPANS ≤ vec_capacity case.spans) × (vec_len case.spans ≡ 0)
        × IsKept case.choices.items case.regions.items case.innermost };
}

impl Case {
    /// A new case over a list that is replayed, with room for `MAX_CHOICES` choices and `MAX_SPANS` spans.
    pub fn replay(alloc: Global, list: &Choices) -> Result<Case, NoMemory>
        ensures { IfOk result (λ case. case ≡ new_state (Listed list.now)) }
    {
        Case::over(alloc, AnswerSource::listed(list)?)
    }

    /// A new case over a supply, with room for `MAX_CHOICES` choices and `MAX_SPANS` spans.
    pub fn fresh(alloc: Global, supply: Supply) -> Result<Case, NoMemory>
        ensures { IfOk result (λ case. case ≡ new_state (Fresh supply)) }
    {
        Case::over(alloc, AnswerSource::fresh(supply))
    }

    /// A new case that answers with the members of a list, as a replay does, and behind them with what the supply makes.
    /// It has room for `MAX_CHOICES` choices and `MAX_SPANS` spans.
    pub fn guided(alloc: Global, list: &Choices, supply: Supply) -> Result<Case, NoMemory>
        ensures { IfOk result (λ case. case ≡ new_state (Guided list.now supply [])) }
    {
        Case::over(alloc, AnswerSource::guided(alloc, list, supply)?)
    }

    fn over(alloc: Global, source: AnswerSource) -> Result<Case, NoMemory>
        ensures { IfOk result (λ case. case ≡ new_state source) }
    {
        Ok(Case {
            source,
            choices: Vec::with_capacity(alloc, MAX_CHOICES)?,
            regions: Vec::with_capacity(alloc, MAX_SPANS)?,
            innermost: None,
            spans: Vec::with_capacity(alloc, MAX_SPANS)?,
            notes: Notes::empty(alloc),
            refused: None,
        })
    }

    /// Asks for a choice of this kind. In a replay the answer is the next member of the list, made to fit. A boolean
    /// and an integer are never refused for want of memory. Where another choice is, what was made so far stays, and
    /// nothing is said of what is left of the source.
    pub fn draw(&mut self, kind: &Kind) -> Result<Choice, Stop>
        ensures answered { IfOk result (λ choice. Answered self.old kind.now choice self.new) }
        ensures overrun { IsErrOf result Stop.Overrun ↔ IsOver self.old }
        ensures stopped { IsErrOf result Stop.Overrun → self.new ≡ stopped_at self.old (Refused.Question kind.now) }
        ensures kept { IsErrOf result Stop.NoMemory → self.new ≡ record self.old { left = self.new.left } }
        ensures small { AsksSmall kind.now → result ≢ Err Stop.NoMemory }
    {
        if self.refused.is_some() || self.choices.len() == MAX_CHOICES {
            return Err(self.refuse(Refused::Question(*kind)));
        }
        match self.source.answer(*self.choices.allocator(), kind) {
            Ok(choice) => {
                stays_in_limits(kind, &choice);
                self.choices.push_reserved(choice.copy()?);
                Ok(choice)
            }
            Err(Stop::Overrun) => Err(self.refuse(Refused::Question(*kind))),
            Err(Stop::NoMemory) => Err(Stop::NoMemory),
        }
    }

    /// Enters a span of this label, below the innermost open one. It is never refused for want of memory.
    pub fn enter(&mut self, label: u32) -> Result<(), Stop>
        ensures entered { OnOk result (Entered self.old label self.new) }
        ensures overrun { IsErrOf result Stop.Overrun ↔ IsFilled self.old }
        ensures stopped { IsErrOf result Stop.Overrun → self.new ≡ stopped_at self.old Refused.Entry }
        ensures memory { result ≢ Err Stop.NoMemory }
    {
        if self.refused.is_some() || self.regions.len() == MAX_SPANS {
            return Err(self.refuse(Refused::Entry));
        }
        let number = self.regions.len() as u16;
        self.regions.push_reserved(Region {
            label,
            from: self.choices.len() as u16,
            to: None,
            parent: self.innermost,
        });
        self.innermost = Some(number);
        Ok(())
    }

    /// Leaves the innermost open span, which ends after the last choice.
    pub fn leave(&mut self)
        requires { IsSome (innermost self.old.regions) }
        ensures { self.new ≡ after_leave self.old }
    {
        let number = self.innermost.unwrap();
        let region = &mut self.regions[usize::from(number)];
        region.to = Some(self.choices.len() as u16);
        self.innermost = region.parent;
    }

    /// Shows a value under a name. After a refusal the case is as it was.
    pub fn note(&mut self, name: Name, val: Val) -> Result<(), NoMemory>
        ensures noted { OnOk result (self.new ≡ after_note self.old (record { name = name; val = val })) }
        ensures unchanged { OnErr result (self.new ≡ self.old) }
    {
        self.notes.push(Note { name, val })
    }

    /// Whether a question or a span was refused, so that the case gives no more.
    pub fn stopped(&self) -> bool
        ensures { result ≡ is_some self.now.refused }
    {
        self.refused.is_some()
    }

    // The kind of the question that the case refused first, if it refused one before any span.
    pub(crate) fn kind_refused(&self) -> Option<Kind>
        ensures { result ≡ kind_refused self.now.refused }
    {
        match &self.refused {
            Some(Refused::Question(kind)) => Some(*kind),
            _ => None,
        }
    }

    // The kinds of the questions so far, which a guided case keeps.
    pub(crate) fn kept_kinds(&self) -> &[Kind]
        ensures { result.now ≡ kept_kinds self.now.left }
    {
        self.source.kept_kinds()
    }

    fn refuse(&mut self, refused: Refused) -> Stop
        ensures stop { result ≡ Stop.Overrun }
        ensures stopped { self.new ≡ stopped_at self.old refused }
    {
        self.refused = self.refused.or(Some(refused));
        Stop::Overrun
    }

    /// The record of the case, which ended so. Spans that are still open end after the last choice.
    pub fn finish(self, ending: Ending) -> Record
        ensures choices { result.choices ≡ self.choices }
        ensures spans { result.spans ≡ spans_at (length self.choices) self.regions }
        ensures notes { result.notes ≡ self.notes }
        ensures ending { result.ending ≡ ending }
    {
        let Case {
            choices,
            regions,
            mut spans,
            notes,
            ..
        } = self;
        let here = choices.len() as u16;
        for region in &regions {
            spans.push_reserved(region.ended(here));
        }
        Record {
            choices: Choices::from(choices),
            spans: Spans::from(spans),
            notes,
            ending,
        }
    }
}

// What a kind admits is within the limits of a record.
fn stays_in_limits(kind: &Kind, choice: &Choice)
    requires { admits kind.now choice.now ≡ true }
    ensures { IsInLimits choice.now }
{
    let _shape = kind.shape();
}
