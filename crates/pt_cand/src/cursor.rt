ghost use Rattle.std.specs.Prelude.{◌≡◌};
ghost use Rattle.pt_cand.specs.Walk.{past, start_of};

use crate::Edit;

/// Where a walk stands: at a place or a span, at a later one that goes with it, and at one of the ways in which both are
/// changed. What the last two count is the pass's own matter.
#[derive(Clone, Copy, Debug)]
pub struct Cursor {
    pub place: usize,
    pub inner: usize,
    pub slot: usize,
}

/// The edit that makes the next list, and where the walk stands after it.
#[derive(Clone, Copy, Debug)]
pub struct Found {
    pub edit: Edit,
    pub next: Cursor,
}

impl Cursor {
    pub(crate) fn start(place: usize) -> Cursor
        ensures { result ≡ start_of place }
    {
        Cursor {
            place,
            inner: 0,
            slot: 0,
        }
    }

    /// The same place, where so many inner ones were passed.
    pub(crate) fn past(self, inner: usize) -> Cursor
        ensures { result ≡ past self inner }
    {
        Cursor {
            place: self.place,
            inner,
            slot: 0,
        }
    }
}
