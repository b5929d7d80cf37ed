//! Lists that are made of the best one by an edit that no pass makes. All of them are strangers.

use pt_case::Span;
use pt_choice::{Choice, Choices, NoMemory, Octets};
use std::alloc::Global;

/// The choices from the one place up to but without the other.
#[derive(Clone, Copy, Debug, PartialEq, Eq)]
pub(crate) struct Part {
    pub(crate) from: usize,
    pub(crate) to: usize,
}

impl Part {
    pub(crate) fn of(span: Span) -> Part {
        Part {
            from: usize::from(span.from),
            to: usize::from(span.to),
        }
    }

    pub(crate) fn has(self, place: usize) -> bool {
        self.from <= place && place < self.to
    }

    pub(crate) fn len(self) -> usize {
        self.to.saturating_sub(self.from)
    }
}

/// How a list is made of the best one.
#[derive(Clone, Copy, Debug)]
pub(crate) enum Variation {
    /// These choices left out.
    Without(Part),
    /// So many falses in their place.
    Falses(Part, usize),
    /// These choices left out, and the integer at this place negated.
    Negated(Part, usize),
    /// These choices left out, and every other integer one nearer to zero.
    Renumbered(Part),
    /// Each of these choices made the simplest of its sort.
    Simplest(Part),
    /// The integer at this place made this one.
    Put(usize, i128),
}

impl Variation {
    /// The list.
    pub(crate) fn made(self, alloc: Global, choices: &[Choice]) -> Result<Choices, NoMemory> {
        let mut list = Choices::empty(alloc);
        for (place, choice) in choices.iter().enumerate() {
            if let Some(made) = self.choice_at(alloc, place, choice)? {
                list.push(made)?;
            }
        }
        Ok(list)
    }

    // What stands in the list for the choice at a place, if anything does.
    fn choice_at(
        self,
        alloc: Global,
        place: usize,
        choice: &Choice,
    ) -> Result<Option<Choice>, NoMemory> {
        match self {
            Variation::Without(part) if part.has(place) => Ok(None),
            Variation::Falses(part, count) if part.has(place) => {
                if place.saturating_sub(part.from) < count {
                    Ok(Some(Choice::Bool(false)))
                } else {
                    Ok(None)
                }
            }
            Variation::Negated(part, _) if part.has(place) => Ok(None),
            Variation::Negated(_, at) if at == place => Ok(Some(negated(choice)?)),
            Variation::Renumbered(part) if part.has(place) => Ok(None),
            Variation::Renumbered(_) => Ok(Some(lessened(choice)?)),
            Variation::Simplest(part) if part.has(place) => Ok(Some(simplest(alloc, choice))),
            Variation::Put(at, value) if at == place => Ok(Some(Choice::Int(value))),
            _ => Ok(Some(choice.copy()?)),
        }
    }
}

fn negated(choice: &Choice) -> Result<Choice, NoMemory> {
    match choice {
        Choice::Int(value) => Ok(Choice::Int(value.wrapping_neg())),
        other => other.copy(),
    }
}

fn lessened(choice: &Choice) -> Result<Choice, NoMemory> {
    match choice {
        Choice::Int(value) => Ok(Choice::Int(nearer_by_one(*value))),
        other => other.copy(),
    }
}

/// One nearer to zero; zero stays.
pub(crate) fn nearer_by_one(value: i128) -> i128 {
    if value > 0 {
        value - 1
    } else if value < 0 {
        value + 1
    } else {
        0
    }
}

/// The simplest choice of the same sort. A replay makes it fit the kind that is asked for.
pub(crate) fn simplest(alloc: Global, choice: &Choice) -> Choice {
    match choice {
        Choice::Bool(_) => Choice::Bool(false),
        Choice::Int(_) => Choice::Int(0),
        Choice::Bytes(_) => Choice::Bytes(Octets::empty(alloc)),
        Choice::Text(_) => Choice::Text(Octets::empty(alloc)),
    }
}
