//! One choice lowered.

ghost use Rattle.std.specs.Prelude.{◌≡◌, ◌<◌, length};
ghost use Rattle.std.specs.Option.{option_map};
ghost use Rattle.pt_cand.specs.Left.{left_of};
ghost use Rattle.pt_cand.specs.Walk.{FindsHere, past};
ghost use Rattle.pt_cand.specs.declared.edit.Edit.TheVariants as edit;
ghost use Rattle.pt_cand.specs.declared.pass.Pass.TheVariants as pass;

use crate::lower::next_integer;
use crate::lower_octets::next_change;
use crate::{Change, Cursor, Edit, Found};
use pt_case::Record;
use pt_choice::Choice;

pub(crate) fn find(best: &Record, at: Cursor) -> Option<Found>
    requires { at.place < length best.now.choices }
    ensures { FindsHere (left_of pass.LowerOne best.now) best.now.choices at result }
{
    match &best.choices.as_slice()[at.place] {
        Choice::Bool(value) => {
            if *value && at.inner == 0 {
                Some(Found {
                    edit: Edit::Unset(at.place),
                    next: at.past(1),
                })
            } else {
                None
            }
        }
        Choice::Int(value) => {
            let (low, looked) = next_integer(*value, at.inner)?;
            Some(Found {
                edit: Edit::Put(at.place, low),
                next: at.past(looked),
            })
        }
        Choice::Bytes(octets) => changed(at, next_change(octets.as_slice(), at.inner)),
        Choice::Text(octets) => changed(at, next_change(octets.as_slice(), at.inner)),
    }
}

// The change of the bytes or the text at a place, as what was found there.
fn changed(at: Cursor, next: Option<(Change, usize)>) -> Option<Found>
    ensures { result ≡ option_map (λ found. record { edit = edit.Change at.place found.0; next = past at found.1 }) next }
{
    let (change, looked) = next?;
    Some(Found {
        edit: Edit::Change(at.place, change),
        next: at.past(looked),
    })
}
