//! A list is found before it is made, so that a walk can pass it over without memory. What was found is noted as an edit.

ghost use Rattle.std.specs.Prelude.{◌≡◌, IfOk};
ghost use Rattle.pt_cand.specs.Edit.{edited};

use crate::make;
use pt_case::Span;
use pt_choice::{Choice, Choices, NoMemory};
use std::alloc::Global;

/// How bytes or places are lowered: the first `front` stay, `put` is put behind them, and then come those from `back` on.
#[derive(Clone, Copy, Debug)]
pub struct Change {
    pub front: usize,
    pub put: Option<u8>,
    pub back: usize,
}

/// How a list is made from the best one.
#[derive(Clone, Copy, Debug)]
pub enum Edit {
    /// The span is left out.
    Delete(Span),
    /// The first span is replaced by the second.
    Descend(Span, Span),
    /// The choice becomes false.
    Unset(usize),
    /// The choice becomes this integer.
    Put(usize, i128),
    /// The bytes or the text are changed.
    Change(usize, Change),
    /// Two choices become these integers.
    PutBoth {
        first: usize,
        one: i128,
        second: usize,
        other: i128,
    },
    /// The two spans change places.
    Swap(Span, Span),
    /// The choice becomes this integer, and the span is left out.
    PutAndDelete {
        place: usize,
        value: i128,
        span: Span,
    },
}

impl Edit {
    /// The list that the edit makes of these choices.
    pub(crate) fn make(self, alloc: Global, choices: &[Choice]) -> Result<Choices, NoMemory>
        ensures { IfOk result (λ list. list ≡ edited choices.now self) }
    {
        match self {
            Edit::Delete(span) => make::deleted(alloc, choices, span),
            Edit::Descend(outer, inner) => make::descended(alloc, choices, outer, inner),
            Edit::Unset(place) => make::put(alloc, choices, place, Choice::Bool(false)),
            Edit::Put(place, value) => make::put(alloc, choices, place, Choice::Int(value)),
            Edit::Change(place, change) => make::changed(alloc, choices, place, change),
            Edit::PutBoth {
                first,
                one,
                second,
                other,
            } => make::put_both(alloc, choices, (first, one), (second, other)),
            Edit::Swap(one, other) => make::swapped(alloc, choices, one, other),
            Edit::PutAndDelete { place, value, span } => make::put_and_deleted(
                alloc,
                choices,
                (place, value),
                span,
            ),
        }
    }
}
