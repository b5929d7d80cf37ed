//! The lists of one proposer, one slot after another. A slot may be empty. What is said to be a candidate is one; of a stranger nothing is
//! asked.

ghost use Rattle.std.specs.Prelude.{◌<◌, ◌-◌, ◌≡◌, true, List, length, IfOk, IfSome};
ghost use Rattle.std.specs.List.{Contains};
ghost use Rattle.pt_choice.specs.declared.choice.Choice.{Choice};
ghost use Rattle.pt_cand.specs.Candidates.{IsCandidate};
ghost use Rattle.pt_shrink.specs.Proposed.{AreHonest, IsHonest, slots_left};

use crate::variation::Variation;
use pt_cand::Walk;
use pt_case::Record;
use pt_choice::{Choice, Choices, NoMemory};
use std::alloc::Global;

/// A list to try.
#[derive(Drop)]
pub(crate) struct Proposal {
    pub(crate) list: Choices,
    pub(crate) stranger: bool,
}

/// What is made of the lists of a pass.
#[derive(Clone, Copy, Debug)]
pub(crate) enum Filter {
    /// Each list as it is.
    All,
    /// The lists that are shorter than the best one by more than one choice.
    Large,
    /// The lists that differ from the best one in no integer.
    NoIntegers,
    /// The lists that differ from it in an integer.
    Integers,
    /// The lists that are shorter by more than one choice, made longer by falses until they are shorter by one.
    Padded,
}

/// Variations of the best list, from one of them on.
#[derive(Drop)]
pub(crate) struct Variations {
    pub(crate) all: Vec<Option<Variation>>,
    pub(crate) next: usize,
}

/// The slots that are still to come.
#[derive(Drop)]
pub(crate) enum Slots<'a> {
    /// The lists of a pass.
    Listed(Walk<'a>),
    Varied(Variations),
}

impl<'a> Slots<'a> {
    /// The next slot, with its list if it holds one; none after the last.
    pub(crate) fn next(
        &mut self,
        alloc: Global,
        best: &Record,
        filter: Filter,
    ) -> Result<Option<Option<Proposal>>, NoMemory>
        requires { AreHonest best.now self.old }
        ensures honest { IfOk result (λ slot. AreHonest best.now self.new) }
        ensures proposal { IfOk result (λ slot. IfSome slot (λ held. IfSome held (IsHonest best.now))) }
        ensures fewer { IfOk result (λ slot. IfSome slot (λ held. slots_left self.new < slots_left self.old)) }
    {
        match self {
            Slots::Listed(walk) => next_listed(walk, alloc, best, filter),
            Slots::Varied(variations) => variations.next_list(alloc, best.choices.as_slice()),
        }
    }
}

// The next slot of a pass, with its list if the filter keeps it; none after the last.
fn next_listed(
    walk: &mut Walk<'_>,
    alloc: Global,
    best: &Record,
    filter: Filter,
) -> Result<Option<Option<Proposal>>, NoMemory>
    requires { (list : List Choice) → Contains walk.old list → IsCandidate best.now list }
    ensures honest { IfOk result (λ slot. (list : List Choice) → Contains walk.new list → IsCandidate best.now list) }
    ensures proposal { IfOk result (λ slot. IfSome slot (λ held. IfSome held (IsHonest best.now))) }
    ensures fewer { IfOk result (λ slot. IfSome slot (λ held. length walk.new < length walk.old)) }
{
    match walk.next_list(alloc)? {
        None => Ok(None),
        Some(list) => Ok(Some(filtered(best, list, filter)?)),
    }
}

impl Variations {
    // The next slot, with its list if it holds one; none after the last.
    fn next_list(
        &mut self,
        alloc: Global,
        choices: &[Choice],
    ) -> Result<Option<Option<Proposal>>, NoMemory>
        ensures strange { IfOk result (λ slot. IfSome slot (λ held. IfSome held (λ proposal. proposal.stranger ≡ true))) }
        ensures fewer { IfOk result (λ slot. IfSome slot (λ held. length self.new.all.items - self.new.next < length self.old.all.items - self.old.next)) }
    {
        if self.next >= self.all.len() {
            return Ok(None);
        }
        let held = self.all[self.next];
        self.next += 1;
        match held {
            None => Ok(Some(None)),
            Some(variation) => Ok(Some(Some(Proposal {
                list: variation.made(alloc, choices)?,
                stranger: true,
            }))),
        }
    }
}

// A list of a pass as the filter has it.
fn filtered(best: &Record, list: Choices, filter: Filter) -> Result<Option<Proposal>, NoMemory>
    requires { IsCandidate best.now list }
    ensures { IfOk result (λ held. IfSome held (IsHonest best.now)) }
{
    let is_kept = match filter {
        Filter::All => true,
        Filter::Large | Filter::Padded => is_much_shorter(&list, best),
        Filter::NoIntegers => !lowers_an_integer(&list, best),
        Filter::Integers => lowers_an_integer(&list, best),
    };
    if !is_kept {
        return Ok(None);
    }
    if matches!(filter, Filter::Padded) {
        let list = padded(list, best.choices.len())?;
        return Ok(Some(Proposal {
            list,
            stranger: true,
        }));
    }
    Ok(Some(Proposal {
        list,
        stranger: false,
    }))
}

// Whether the list is shorter than the best one by more than one choice.
fn is_much_shorter(list: &Choices, best: &Record) -> bool {
    best.choices.len().saturating_sub(list.len()) > 1
}

// Whether the first choice in which the list differs from the best one is an integer.
fn lowers_an_integer(list: &Choices, best: &Record) -> bool {
    for (before, here) in best.choices.as_slice().iter().zip(list.as_slice()) {
        if before != here {
            return matches!(before, Choice::Int(_));
        }
    }
    false
}

// The list made longer by falses, until it has one choice fewer than so many.
fn padded(mut list: Choices, count: usize) -> Result<Choices, NoMemory> {
    for _ in list.len().saturating_add(1)..count {
        list.push(Choice::Bool(false))?;
    }
    Ok(list)
}
