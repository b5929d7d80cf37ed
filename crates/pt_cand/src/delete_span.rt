//! Each region left out.

ghost use Rattle.std.specs.Prelude.{◌<◌, length};
ghost use Rattle.pt_cand.specs.Left.{left_of};
ghost use Rattle.pt_cand.specs.Walk.{FindsHere};
ghost use Rattle.pt_cand.specs.declared.pass.Pass.TheVariants as pass;

use crate::region::is_new;
use crate::{Cursor, Edit, Found};
use pt_case::Record;

pub(crate) fn find(best: &Record, at: Cursor) -> Option<Found>
    requires { at.place < length best.now.spans }
    ensures { FindsHere (left_of pass.DeleteSpan best.now) best.now.choices at result }
{
    let spans = best.spans.as_slice();
    let span = spans[at.place];
    if is_new(span, &spans[..at.place]) {
        Some(Found {
            edit: Edit::Delete(span),
            next: Cursor::start(at.place + 1),
        })
    } else {
        None
    }
}
