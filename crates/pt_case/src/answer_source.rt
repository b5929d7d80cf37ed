ghost use Rattle.std.specs.Prelude.{◌≡◌, ◌≢◌, ◌↔◌, ◌≤◌, true, [], ◌∷◌, ◌++◌, length, take, Some, vec_capacity, IfOk, OnOk, IsErrOf};
ghost use Rattle.pt_choice.specs.Kind.{admits, AsksSmall};
ghost use Rattle.pt_case.specs.Source.{Listed, Fresh, Guided, answer_to, left_after, kept_kinds};

use crate::{MAX_CHOICES, Stop};
use pt_choice::{Choice, Choices, Kind, NoMemory, fit};
use pt_rng::Supply;
use std::alloc::Global;
use std::marker::Model;

/// Where a case's answers come from.
#[derive(Drop)]
pub(crate) struct AnswerSource {
    remaining: Remaining,
}

#[derive(Drop)]
enum Remaining {
    /// The members of the list from `next` on.
    Listed {
        list: Choices,
        next: usize,
    },
    Fresh(Supply),
    /// The members of the list from `next` on, and then the supply.
    Guided {
        list: Choices,
        next: usize,
        supply: Supply,
        asked: Vec<Kind>,
    },
}

impl Model for AnswerSource {
    ghost use Rattle.pt_case.specs.Source.{Source};

    ghost Value = { Source };

    ghost use Rattle.pt_case.specs.Remaining.{source_of, IsRemaining};

    ghost view = { λ source. source_of source.remaining };

    ghost invariant = { λ source. IsRemaining source.remaining };
}

impl AnswerSource {
    pub(crate) fn listed(list: &Choices) -> Result<AnswerSource, NoMemory>
        ensures { IfOk result (λ source. source ≡ Listed list.now) }
    {
        let list = list.copy()?;
        Ok(AnswerSource {
            remaining: Remaining::Listed { list, next: 0 },
        })
    }

    pub(crate) fn fresh(supply: Supply) -> AnswerSource
        ensures { result ≡ Fresh supply }
    {
        AnswerSource {
            remaining: Remaining::Fresh(supply),
        }
    }

    pub(crate) fn guided(
        alloc: Global,
        list: &Choices,
        supply: Supply,
    ) -> Result<AnswerSource, NoMemory>
        ensures { IfOk result (λ source. source ≡ Guided list.now supply []) }
    {
        let list = list.copy()?;
        let asked = Vec::with_capacity(alloc, MAX_CHOICES)?;
        Ok(AnswerSource {
            remaining: Remaining::Guided {
                list,
                next: 0,
                supply,
                asked,
            },
        })
    }

    // The kinds of the questions so far, where it keeps them.
    pub(crate) fn kept_kinds(&self) -> &[Kind]
        ensures { result.now ≡ kept_kinds self.now }
    {
        match &self.remaining {
            Remaining::Guided { asked, .. } => asked.as_slice(),
            _ => &[],
        }
    }

    // The answer to a question of this kind. A listed one is made to fit; Overrun says that the list is used up.
    pub(crate) fn answer(&mut self, alloc: Global, kind: &Kind) -> Result<Choice, Stop>
        ensures answered { IfOk result (λ choice. answer_to self.old kind.now ≡ Some choice) }
        ensures admitted { IfOk result (λ choice. admits kind.now choice ≡ true) }
        ensures left { OnOk result (self.new ≡ left_after self.old kind.now) }
        ensures overrun { IsErrOf result Stop.Overrun ↔ (self.old ≡ Listed []) }
        ensures unchanged { IsErrOf result Stop.Overrun → self.new ≡ self.old }
        ensures small { AsksSmall kind.now → result ≢ Err Stop.NoMemory }
    {
        match &mut self.remaining {
            Remaining::Listed { list, next } => {
                let Some(given) = list.as_slice().get(*next) else {
                    return Err(Stop::Overrun);
                };
                let choice = fit(alloc, kind, given)?;
                *next += 1;
                Ok(choice)
            }
            Remaining::Fresh(supply) => Ok(supply.next_choice(alloc, kind)?),
            Remaining::Guided {
                list,
                next,
                supply,
                asked,
            } => match list.as_slice().get(*next) {
                Some(given) => {
                    let choice = fit(alloc, kind, given)?;
                    *next += 1;
                    keep(asked, kind);
                    Ok(choice)
                }
                None => {
                    let choice = supply.next_choice(alloc, kind)?;
                    keep(asked, kind);
                    Ok(choice)
                }
            },
        }
    }
}

// A kind past the room is one of a question that the case refuses.
fn keep(asked: &mut Vec<Kind>, kind: &Kind)
    requires few { length asked.old.items ≤ 256 }
    requires room { 256 ≤ vec_capacity asked.old }
    ensures kept { asked.new.items ≡ take 256 (asked.old.items ++ kind.now ∷ []) }
    ensures few { length asked.new.items ≤ 256 }
    ensures room { vec_capacity asked.new ≡ vec_capacity asked.old }
{
    if asked.len() < MAX_CHOICES {
        asked.push_reserved(*kind);
    }
}
