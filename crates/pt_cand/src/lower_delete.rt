//! A nonzero integer moved toward zero by 1, and a later region left out.

ghost use Rattle.std.specs.Prelude.{◌≡◌, ◌<◌, length, slice_index_or, unsigned_abs};
ghost use Rattle.pt_choice.specs.declared.choice.Choice.{Choice};
ghost use Rattle.pt_choice.specs.declared.choice.Choice.TheVariants as choice;
ghost use Rattle.pt_cand.specs.Left.{left_of};
ghost use Rattle.pt_cand.specs.Walk.{FindsHere};
ghost use Rattle.pt_cand.specs.declared.pass.Pass.TheVariants as pass;

use crate::lower::nearer;
use crate::region::is_new;
use crate::{Cursor, Edit, Found};
use pt_case::Record;
use pt_choice::Choice;

pub(crate) fn find(best: &Record, at: Cursor) -> Option<Found>
    requires { at.place < length best.now.choices }
    ensures { FindsHere (left_of pass.LowerDelete best.now) best.now.choices at result }
{
    match &best.choices.as_slice()[at.place] {
        Choice::Int(value) => {
            if *value == 0 {
                None
            } else {
                find_region(best, *value, at)
            }
        }
        _ => None,
    }
}

// The next region that begins after the nonzero integer at a place.
fn find_region(best: &Record, value: i128, at: Cursor) -> Option<Found>
    requires within { at.place < length best.now.choices }
    requires given { (d : Choice) → slice_index_or best.now.choices at.place d ≡ choice.Int value }
    requires nonzero { 0 < unsigned_abs value }
    ensures { FindsHere (left_of pass.LowerDelete best.now) best.now.choices at result }
{
    let less = nearer(value, 1);
    let spans = best.spans.as_slice();
    for number in at.inner..spans.len() {
        let span = spans[number];
        if at.place < usize::from(span.from) && is_new(span, &spans[..number]) {
            return Some(Found {
                edit: Edit::PutAndDelete {
                    place: at.place,
                    value: less,
                    span,
                },
                next: at.past(number + 1),
            });
        }
    }
    None
}
