//! The next list of any pass.

ghost use Rattle.std.specs.Prelude.{◌≡◌, ◌<◌};
ghost use Rattle.pt_cand.specs.Left.{left_of, places_of};
ghost use Rattle.pt_cand.specs.Walk.{Finds, FindsHere};

use crate::pairs::{self, Together};
use crate::{Cursor, Found, Pass, delete_span, descend, lower_delete, lower_one, swap_siblings};
use pt_case::Record;

// How many places the pass goes through.
fn places(best: &Record, pass: Pass) -> usize
    ensures { result ≡ places_of pass best.now }
{
    match pass {
        Pass::DeleteSpan | Pass::Descend | Pass::SwapSiblings => best.spans.len(),
        Pass::LowerOne | Pass::LowerPair | Pass::LowerDelete | Pass::Shift => best.choices.len(),
    }
}

// The next list of the pass at a place.
fn find_here(best: &Record, pass: Pass, at: Cursor) -> Option<Found>
    requires { at.place < places_of pass best.now }
    ensures { FindsHere (left_of pass best.now) best.now.choices at result }
{
    match pass {
        Pass::DeleteSpan => delete_span::find(best, at),
        Pass::Descend => descend::find(best, at),
        Pass::LowerOne => lower_one::find(best, at),
        Pass::LowerPair => pairs::find(Together::Nearer, best.choices.as_slice(), at),
        Pass::SwapSiblings => swap_siblings::find(best, at),
        Pass::LowerDelete => lower_delete::find(best, at),
        Pass::Shift => pairs::find(Together::Against, best.choices.as_slice(), at),
    }
}

/// The next list of the pass from a cursor on. Takes no memory.
pub(crate) fn find(best: &Record, pass: Pass, from: Cursor) -> Option<Found>
    ensures { Finds (left_of pass best.now) best.now.choices from result }
{
    let places = places(best, pass);
    let mut at = from;
    while at.place < places {
        if let Some(found) = find_here(best, pass, at) {
            return Some(found);
        }
        at = Cursor::start(at.place + 1);
    }
    None
}
