//! Two sibling spans exchanged.

ghost use Rattle.std.specs.Prelude.{◌≡◌, ◌<◌, ◌≤◌, length, slice_index_or, find};
ghost use Rattle.std.specs.Ordering.{is_lt};
ghost use Rattle.pt_choice.specs.Order.{shortlex};
ghost use Rattle.pt_choice.specs.declared.choice.Choice.{Choice};
ghost use Rattle.pt_cand.specs.Left.{left_of};
ghost use Rattle.pt_cand.specs.SwapSiblings.{are_siblings, swapped, InOrder};
ghost use Rattle.pt_cand.specs.Walk.{FindsHere};
ghost use Rattle.pt_cand.specs.declared.pass.Pass.TheVariants as pass;

use crate::{Cursor, Edit, Found};
use pt_case::{Record, Span};
use pt_choice::{Choice, cmp_choice};
use std::cmp::Ordering;

// The next span with the same parent.
fn next_sibling(one: Span, later: &[Span]) -> Option<Span>
    ensures { result ≡ find (are_siblings one) later.now }
{
    for other in later {
        if one.parent == other.parent {
            return Some(*other);
        }
    }
    None
}

// The choice that comes to this place when the spans are exchanged.
fn moved_to<'a>(choices: &'a [Choice], one: Span, other: Span, at: usize) -> &'a Choice
    requires order { InOrder (length choices.now) one other }
    requires within { at < length choices.now }
    ensures { (d : Choice) → result.now ≡ slice_index_or (swapped choices.now one other) at d }
{
    let first = usize::from(one.from);
    let moved = usize::from(other.to) - usize::from(other.from);
    let between = usize::from(other.from) - usize::from(one.to);
    if at < first {
        &choices[at]
    } else if at < first + moved {
        &choices[usize::from(other.from) + (at - first)]
    } else if at < first + moved + between {
        &choices[usize::from(one.to) + (at - first - moved)]
    } else if at < usize::from(other.to) {
        &choices[first + (at - first - moved - between)]
    } else {
        &choices[at]
    }
}

// Whether the list with the spans exchanged comes before this one.
fn is_lower(choices: &[Choice], one: Span, other: Span) -> bool
    requires { InOrder (length choices.now) one other }
    ensures { result ≡ is_lt (shortlex (swapped choices.now one other) choices.now) }
{
    for at in 0..choices.len() {
        match cmp_choice(moved_to(choices, one, other, at), &choices[at]) {
            Ordering::Less => return true,
            Ordering::Equal => {}
            Ordering::Greater => return false,
        }
    }
    false
}

pub(crate) fn find(best: &Record, at: Cursor) -> Option<Found>
    requires { at.place < length best.now.spans }
    ensures { FindsHere (left_of pass.SwapSiblings best.now) best.now.choices at result }
{
    let spans = best.spans.as_slice();
    let one = spans[at.place];
    let other = next_sibling(one, &spans[at.place + 1..])?;
    if one.label == other.label
        && one.to <= other.from
        && is_lower(best.choices.as_slice(), one, other)
    {
        Some(Found {
            edit: Edit::Swap(one, other),
            next: Cursor::start(at.place + 1),
        })
    } else {
        None
    }
}
