//! A span replaced by one inside it.

ghost use Rattle.std.specs.Prelude.{◌≡◌, ◌<◌, ◌≤◌, ◌+◌, [], ◌∷◌, take, drop, length, slice_index_or};
ghost use Rattle.pt_case.specs.declared.span.Span.{Span};
ghost use Rattle.pt_cand.specs.Descend.{is_among, may_replace};
ghost use Rattle.pt_cand.specs.Left.{known_after, left_of};
ghost use Rattle.pt_cand.specs.Walk.{FindsHere};
ghost use Rattle.pt_cand.specs.declared.pass.Pass.TheVariants as pass;

use crate::{Cursor, Edit, Found};
use pt_case::{Record, Span};

// Whether the parents of this span behind the outer one, counted from 0, lead up to it.
fn is_below(best: &Record, outer: usize, inner: usize) -> bool
    requires { outer + 1 + inner < length best.now.spans }
    ensures { (d : Span) → result ≡ is_among (known_after (outer ∷ []) (outer + 1) (take inner (drop (outer + 1) best.now.spans)))
        (slice_index_or best.now.spans (outer + 1 + inner) d).parent }
{
    let spans = best.spans.as_slice();
    let mut parent = spans[outer + 1 + inner].parent;
    while let Some(number) = parent {
        let number = usize::from(number);
        if number <= outer {
            return number == outer;
        }
        parent = spans[number].parent;
    }
    false
}

fn may_replace(outer: Span, inner: Span) -> bool
    requires outer { outer.from ≤ outer.to }
    requires inner { inner.from ≤ inner.to }
    ensures { result ≡ may_replace outer inner }
{
    inner.label == outer.label && inner.to - inner.from < outer.to - outer.from
}

pub(crate) fn find(best: &Record, at: Cursor) -> Option<Found>
    requires { at.place < length best.now.spans }
    ensures { FindsHere (left_of pass.Descend best.now) best.now.choices at result }
{
    let spans = best.spans.as_slice();
    let outer = spans[at.place];
    for inner in at.inner..spans.len() - (at.place + 1) {
        let span = spans[at.place + 1 + inner];
        if may_replace(outer, span) && is_below(best, at.place, inner) {
            return Some(Found {
                edit: Edit::Descend(outer, span),
                next: at.past(inner + 1),
            });
        }
    }
    None
}
