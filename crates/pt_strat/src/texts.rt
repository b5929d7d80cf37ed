ghost use Rattle.std.specs.Prelude.{◌≡◌, ◌≤◌, length, true, nat_lt, IfOk, OnOk};
ghost use Rattle.std.specs.List.{list_all};
ghost use Rattle.pt_choice.specs.declared.kind.Shape.TheVariants as kind;
ghost use Rattle.pt_plan.specs.Came.{Drew};
ghost use Rattle.pt_plan.specs.Halt.{case_halt};
ghost use Rattle.pt_plan.specs.Stop.{draw_halt};
ghost use Rattle.pt_plan.specs.Open.{open_spans};
ghost use Rattle.pt_plan.specs.Plan.{Asks, Gives};
ghost use Rattle.pt_strat.specs.Parts.{chars_at, places_in, bytes_in, text_plan, blob_plan};

use crate::bounds::{Lengths, bad_bounds};
use pt_case::{Case, Stop};
use pt_choice::{Choice, Kind, NoMemory, Octets};
use pt_plan::{DrawStop, ask};
use pt_val::{Chars, Place, Val};
use std::alloc::Global;

/// A text of characters of an alphabet.
pub(crate) fn draw_text(
    alloc: Global,
    at: Place,
    alphabet: &[char],
    lengths: Lengths,
    case: &mut Case,
) -> Result<Val, DrawStop>
    requires ordered { lengths.least ≤ lengths.most }
    requires short { lengths.most ≤ 64 }
    ensures drew { Drew draw_halt (text_plan at alphabet.now lengths) case.old case.new result }
    ensures closed { OnOk result (open_spans case.new ≡ open_spans case.old) }
{
    if alphabet.is_empty() || alphabet.len() > 256 {
        return Err(bad_bounds(at));
    }
    let places = ask_places(case, lengths, alphabet.len())?;
    Ok(Val::Text(chars_at(alloc, alphabet, places.as_slice())?))
}

/// Bytes.
pub(crate) fn draw_blob(lengths: Lengths, case: &mut Case) -> Result<Val, DrawStop>
    requires ordered { lengths.least ≤ lengths.most }
    requires short { lengths.most ≤ 64 }
    ensures drew { Drew draw_halt (blob_plan lengths) case.old case.new result }
    ensures closed { OnOk result (open_spans case.new ≡ open_spans case.old) }
{
    let bytes = ask_bytes(case, lengths)?;
    Ok(Val::Bytes(bytes))
}

// The places of a text that is asked for.
fn ask_places(case: &mut Case, lengths: Lengths, size: usize) -> Result<Octets, Stop>
    requires filled { 1 ≤ size }
    requires small { size ≤ 256 }
    requires ordered { lengths.least ≤ lengths.most }
    requires short { lengths.most ≤ 64 }
    ensures drew { Drew case_halt (Asks (kind.Text lengths.least lengths.most size) (λ answer. Gives (places_in answer))) case.old case.new result }
    ensures within { IfOk result (λ places. list_all (λ place. nat_lt place size) places ≡ true) }
    ensures closed { OnOk result (open_spans case.new ≡ open_spans case.old) }
{
    let kind = Kind::of_text(lengths.least as u8, lengths.most as u8, size as u16).unwrap();
    match ask(case, &kind)? {
        Choice::Text(places) => Ok(places),
        _ => unreachable!(),
    }
}

// The bytes that are asked for.
fn ask_bytes(case: &mut Case, lengths: Lengths) -> Result<Octets, Stop>
    requires ordered { lengths.least ≤ lengths.most }
    requires short { lengths.most ≤ 64 }
    ensures drew { Drew case_halt (Asks (kind.Bytes lengths.least lengths.most) (λ answer. Gives (bytes_in answer))) case.old case.new result }
    ensures closed { OnOk result (open_spans case.new ≡ open_spans case.old) }
{
    let kind = Kind::of_bytes(lengths.least as u8, lengths.most as u8).unwrap();
    match ask(case, &kind)? {
        Choice::Bytes(bytes) => Ok(bytes),
        _ => unreachable!(),
    }
}

fn chars_at(alloc: Global, alphabet: &[char], places: &[u8]) -> Result<Chars, NoMemory>
    requires { list_all (λ place. nat_lt place (length alphabet.now)) places.now ≡ true }
    ensures { IfOk result (λ chars. chars ≡ chars_at alphabet.now places.now) }
{
    let mut chars = Chars::empty(alloc);
    for place in places {
        chars.push(alphabet[usize::from(*place)])?;
    }
    Ok(chars)
}
