//! Two integers moved together.

ghost use Rattle.std.specs.Prelude.{◌≡◌, ◌<◌, All, length, slice_get, slice_index_or};
ghost use Rattle.pt_choice.specs.Limits.{IsBounded, IsInLimits};
ghost use Rattle.pt_choice.specs.declared.choice.Choice.{Choice};
ghost use Rattle.pt_choice.specs.declared.choice.Choice.TheVariants as choice;
ghost use Rattle.pt_cand.specs.Left.{moved_by, pairs_left};
ghost use Rattle.pt_cand.specs.Moves.{against, moves};
ghost use Rattle.pt_cand.specs.Walk.{FindsHere};

use crate::lower::nearer;
use crate::{Cursor, Edit, Found};
use pt_choice::Choice;

/// How two integers are moved.
#[derive(Clone, Copy, Debug)]
pub enum Together {
    /// Both toward zero.
    Nearer,
    /// The first toward zero, and the second as much the other way.
    Against,
}

// By 1, and by so much where that exceeds 1.
fn moves(size: u64, slot: usize) -> Option<u64>
    ensures { result ≡ slice_get (moves size) slot }
{
    if slot >= 2 || slot as u64 >= size {
        None
    } else if slot == 0 {
        Some(1)
    } else {
        Some(size)
    }
}

// Moved by so much the other way than the first integer moves toward zero.
fn against(one: i128, other: i128, by: u64) -> i128
    requires { IsBounded other }
    ensures { result ≡ against one other by }
{
    if one < 0 {
        other - i128::from(by)
    } else {
        other + i128::from(by)
    }
}

fn moved(together: Together, one: i128, other: i128, slot: usize) -> Option<(i128, i128)>
    requires one { IsBounded one }
    requires other { IsBounded other }
    ensures { result ≡ slice_get (moved_by together one other) slot }
{
    match together {
        Together::Nearer => {
            let size = one.unsigned_abs().min(other.unsigned_abs()) as u64;
            let by = moves(size, slot)?;
            Some((nearer(one, by), nearer(other, by)))
        }
        Together::Against => {
            let by = moves(one.unsigned_abs() as u64, slot)?;
            Some((nearer(one, by), against(one, other, by)))
        }
    }
}

/// The next pair of a place with a later one.
pub(crate) fn find(together: Together, choices: &[Choice], at: Cursor) -> Option<Found>
    requires within { at.place < length choices.now }
    requires bounded { All IsInLimits choices.now }
    ensures { FindsHere (pairs_left (moved_by together) choices.now) choices.now at result }
{
    match &choices[at.place] {
        Choice::Int(one) => find_later(together, choices, *one, at),
        _ => None,
    }
}

// The next pair of the integer at a place with a later one.
fn find_later(together: Together, choices: &[Choice], one: i128, at: Cursor) -> Option<Found>
    requires within { at.place < length choices.now }
    requires bounded { All IsInLimits choices.now }
    requires given { (d : Choice) → slice_index_or choices.now at.place d ≡ choice.Int one }
    ensures { FindsHere (pairs_left (moved_by together) choices.now) choices.now at result }
{
    let mut inner = at.inner;
    let mut slot = at.slot;
    while inner < choices.len() - (at.place + 1) {
        let second = at.place + 1 + inner;
        if let Choice::Int(other) = &choices[second] {
            if let Some(pair) = moved(together, one, *other, slot) {
                return Some(Found {
                    edit: Edit::PutBoth {
                        first: at.place,
                        one: pair.0,
                        second,
                        other: pair.1,
                    },
                    next: Cursor {
                        place: at.place,
                        inner,
                        slot: slot + 1,
                    },
                });
            }
        }
        inner += 1;
        slot = 0;
    }
    None
}
