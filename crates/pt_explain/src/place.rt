//! The mark of one place.

ghost use Rattle.std.specs.Prelude.{◌≡◌, ◌+◌, ◌<◌, ◌≤◌, Some, [], ◌∷◌, ◌++◌, IfOk, MatchOption, List, length, slice_get};
ghost use Rattle.pt_choice.specs.Limits.{IsInLimits};
ghost use Rattle.pt_choice.specs.declared.choice.Choice.{Choice};
ghost use Rattle.pt_explain.specs.Replaced.{Differs};
ghost use Rattle.pt_explain.specs.Tally.{IsTally, IsMarked};

use crate::effect::{Effect, try_other};
use crate::{Mark, others};
use pt_case::{Check, Record};
use pt_choice::{Choice, NoMemory};
use std::alloc::Global;

/// What is known of a place while none of the members that were tried differs.
#[derive(Drop)]
pub(crate) struct Tally {
    /// So many count.
    pub(crate) tried: u32,
    /// The first that does.
    pub(crate) first: Option<Choice>,
}

/// A place's mark, and the choice that stands there when all free ones are replaced.
#[derive(Drop)]
pub(crate) struct Marked {
    pub(crate) mark: Mark,
    pub(crate) choice: Choice,
}

/// Tries the members in place of a record's choice, up to the first that differs.
pub(crate) fn mark_place<C: Check>(
    alloc: Global,
    check: &C,
    best: &Record,
    place: usize,
) -> Result<Marked, NoMemory>
    requires { place < length best.now.choices }
    ensures { IfOk result (λ marked. (given : Choice) → slice_get best.now.choices place ≡ Some given →
        IsMarked (C.step check.now) best.now place given marked) }
{
    let given = given_at(best, place);
    let members = others(alloc, given)?;
    let mut tally = Tally {
        tried: 0,
        first: None,
    };
    for member in members.as_slice() {
        if let Some(by) = take_in(alloc, check, best, place, member, &mut tally)? {
            return Ok(Marked {
                mark: Mark::Bound { by },
                choice: given.copy()?,
            });
        }
    }
    let Tally { tried, first } = tally;
    match first {
        Some(choice) => Ok(Marked {
            mark: Mark::Free { tried },
            choice,
        }),
        None => Ok(Marked {
            mark: Mark::Untried,
            choice: given.copy()?,
        }),
    }
}

fn given_at(best: &Record, place: usize) -> &Choice
    requires { place < length best.now.choices }
    ensures is { (given : Choice) → slice_get best.now.choices place ≡ Some given → result.now ≡ given }
    ensures limits { IsInLimits result.now }
{
    &best.choices.as_slice()[place]
}

// Tries the next member. The answer is the choice by which the place is bound, if this member differs.
fn take_in<C: Check>(
    alloc: Global,
    check: &C,
    best: &Record,
    place: usize,
    member: &Choice,
    tally: &mut Tally,
) -> Result<Option<Choice>, NoMemory>
    requires within { place < length best.now.choices }
    requires few { tally.old.tried < 10 }
    ensures goes_on { IfOk result (λ bound. (members : List Choice) → IsTally (C.step check.now) best.now place members tally.old →
        MatchOption bound
        (IsTally (C.step check.now) best.now place (members ++ member.now ∷ []) tally.new)
        (λ by. Differs (C.step check.now) best.now place member.now by)) }
    ensures few { IfOk result (λ bound. tally.new.tried ≤ tally.old.tried + 1) }
{
    match try_other(alloc, check, best, place, member)? {
        Effect::Repaired => Ok(None),
        Effect::Alike => {
            let first = first_of(tally, member)?;
            *tally = Tally {
                tried: tally.tried + 1,
                first: Some(first),
            };
            Ok(None)
        }
        Effect::Differs(by) => Ok(Some(by)),
    }
}

// The first that counts, once this one does.
fn first_of(tally: &Tally, member: &Choice) -> Result<Choice, NoMemory>
    ensures { IfOk result (λ first. MatchOption tally.now.first (first ≡ member.now) (λ earlier. first ≡ earlier)) }
{
    match &tally.first {
        Some(first) => first.copy(),
        None => member.copy(),
    }
}
