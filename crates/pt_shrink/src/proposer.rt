//! Where lists come from. A proposer hands out lists of the best record in slots; the order of the proposers, and of the slots of each, was found
//! by experiment.

mod join;
mod mirror;
mod prune;
mod renumber;
mod smaller;
pub(crate) mod spans;
mod two;
mod zero;

ghost use Rattle.std.specs.Prelude.{IfOk};
ghost use Rattle.pt_shrink.specs.Proposed.{AreHonest};

use crate::slots::{Filter, Slots, Variations};
use crate::variation::Variation;
use pt_cand::{Pass, Walk};
use pt_case::Record;
use pt_choice::NoMemory;
use std::alloc::Global;

/// Where lists come from.
#[derive(Clone, Copy, Debug, PartialEq, Eq)]
pub(crate) enum Proposer {
    /// Spans of more than one choice left out.
    Big,
    /// Two lists made into one.
    Join,
    /// A list, or two, made empty.
    Prune,
    /// A span replaced by one inside it.
    Descend,
    /// The same, with falses at the end.
    DescendPadded,
    /// Choices lowered that are no integers.
    Shape,
    /// A part left out, and the integer beside it negated.
    Mirror,
    /// Integers lowered.
    Integers,
    /// Integers made small, or turned.
    Smaller,
    /// Spans left out.
    Delete,
    /// Two integers lowered by the same.
    Pair,
    /// Sibling spans exchanged.
    Swap,
    /// An integer lowered by one, and a span left out.
    LowerDelete,
    /// An integer lowered, and a later one raised by as much.
    Shift,
    /// A part left out, and every integer lowered by one.
    Renumber,
    /// A part made simplest.
    Zero,
    /// Two sibling spans left out.
    Two,
    /// Spans left out, with falses at the end.
    DeletePadded,
}

/// The proposers in the order in which a round goes through them.
pub(crate) const ROUND: [Proposer; 19] = [
    Proposer::Big,
    Proposer::Join,
    Proposer::Prune,
    Proposer::Descend,
    Proposer::DescendPadded,
    Proposer::Shape,
    Proposer::Mirror,
    Proposer::Integers,
    Proposer::Smaller,
    Proposer::Delete,
    Proposer::Pair,
    Proposer::Swap,
    Proposer::LowerDelete,
    Proposer::Shift,
    Proposer::Join,
    Proposer::Renumber,
    Proposer::Zero,
    Proposer::Two,
    Proposer::DeletePadded,
];

impl Proposer {
    /// Whether its lists leave a span out, so that more of the same kind may be left out at once.
    pub(crate) fn deletes(self) -> bool {
        matches!(self, Proposer::Big | Proposer::Delete)
    }

    /// Its slots for this best record, from this one on.
    pub(crate) fn slots<'a>(
        self,
        alloc: Global,
        best: &'a Record,
        from: u32,
    ) -> Result<Slots<'a>, NoMemory>
        ensures { IfOk result (AreHonest best.now) }
    {
        match self.pass() {
            Some(pass) => Ok(listed(best, pass, from)),
            None => Ok(Slots::Varied(Variations {
                all: self.variations(alloc, best)?,
                next: from as usize,
            })),
        }
    }

    // The pass whose lists it hands out, if it does.
    fn pass(self) -> Option<Pass> {
        match self {
            Proposer::Big | Proposer::Delete | Proposer::DeletePadded => Some(Pass::DeleteSpan),
            Proposer::Descend | Proposer::DescendPadded => Some(Pass::Descend),
            Proposer::Shape | Proposer::Integers => Some(Pass::LowerOne),
            Proposer::Pair => Some(Pass::LowerPair),
            Proposer::Swap => Some(Pass::SwapSiblings),
            Proposer::LowerDelete => Some(Pass::LowerDelete),
            Proposer::Shift => Some(Pass::Shift),
            _ => None,
        }
    }

    /// What is made of the pass's lists.
    pub(crate) fn filter(self) -> Filter {
        match self {
            Proposer::Big => Filter::Large,
            Proposer::DescendPadded | Proposer::DeletePadded => Filter::Padded,
            Proposer::Shape => Filter::NoIntegers,
            Proposer::Integers => Filter::Integers,
            _ => Filter::All,
        }
    }

    // The variations of the best list that it proposes.
    fn variations(self, alloc: Global, best: &Record) -> Result<Vec<Option<Variation>>, NoMemory> {
        let choices = best.choices.as_slice();
        let spans = best.spans.as_slice();
        match self {
            Proposer::Join => join::variations(alloc, choices),
            Proposer::Prune => prune::variations(alloc, choices, spans),
            Proposer::Mirror => mirror::variations(alloc, choices, spans),
            Proposer::Smaller => smaller::variations(alloc, choices),
            Proposer::Renumber => renumber::variations(alloc, choices, spans),
            Proposer::Zero => zero::variations(alloc, choices, spans),
            Proposer::Two => two::variations(alloc, spans),
            _ => Ok(Vec::new(alloc)),
        }
    }
}

// The lists of a pass from this one on.
fn listed<'a>(best: &'a Record, pass: Pass, from: u32) -> Slots<'a>
    ensures { AreHonest best.now result }
{
    let mut walk = Walk::of(best, pass);
    walk.skip(from);
    Slots::Listed(walk)
}
