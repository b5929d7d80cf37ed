ghost use Rattle.std.specs.Prelude.{◌≡◌, slice_get, map, option_map, pos};
ghost use Rattle.pt_eval.specs.Parts.{items_of};
ghost use Rattle.pt_eval.specs.Seen.{seen, shown};
ghost use Rattle.pt_eval.specs.Steps.{indexed, part_at};
ghost use Rattle.pt_eval.specs.Evaluates.{Evaluates};

use crate::EvalStop;
use crate::reading::{into_parts, parts};
use crate::seen::Seen;
use pt_case::What;
use pt_val::{Place, Val, Vals};
use std::alloc::Global;

/// The item at an index. What is lent stays where it is, and else the item is taken out of what holds it.
pub(crate) fn index<'a>(at: Place, base: Seen<'a>, index: i64) -> Result<Seen<'a>, EvalStop>
    ensures { Evaluates (indexed at (seen base.entry) index) (shown result) }
{
    let Ok(place) = usize::try_from(index) else {
        return Err(EvalStop::fault(What::Index, at));
    };
    match item(base, place) {
        Some(item) => Ok(item),
        None => Err(EvalStop::fault(What::Index, at)),
    }
}

/// The item at a place.
fn item<'a>(base: Seen<'a>, place: usize) -> Option<Seen<'a>>
    ensures { option_map seen result ≡ slice_get (items_of (seen base.entry)) place }
{
    match base {
        Seen::Lent(val) => item_of(val, place),
        Seen::Made(Val::List(members)) => made(nth(members, place)),
        Seen::Made(Val::Bytes(bytes)) => made(byte_at(bytes.as_slice(), place)),
        Seen::Made(_other) => None,
    }
}

fn item_of<'a>(base: &'a Val, place: usize) -> Option<Seen<'a>>
    ensures { option_map seen result ≡ slice_get (items_of base.now) place }
{
    match base {
        Val::List(members) => lent_at(members.as_slice(), place),
        Val::Bytes(bytes) => made(byte_at(bytes.as_slice(), place)),
        _other => None,
    }
}

/// The part of a tuple with this number, or 0 where there is none.
pub(crate) fn part<'a>(alloc: Global, base: Seen<'a>, number: i64) -> Seen<'a>
    ensures { seen result ≡ part_at (seen base.entry) number }
{
    let Ok(place) = usize::try_from(number) else {
        return Seen::Made(Val::Int(0));
    };
    match base {
        Seen::Lent(val) => or_zero(lent_at(parts(val), place)),
        Seen::Made(val) => or_zero(made(nth(into_parts(alloc, val), place))),
    }
}

fn or_zero<'a>(found: Option<Seen<'a>>) -> Seen<'a>
    ensures { seen result ≡ Rattle.pt_eval.specs.Parts.or_zero (option_map seen found.entry) }
{
    found.unwrap_or(Seen::Made(Val::Int(0)))
}

fn lent_at<'a>(values: &'a [Val], place: usize) -> Option<Seen<'a>>
    ensures { option_map seen result ≡ slice_get values.now place }
{
    match values.get(place) {
        Some(val) => Some(Seen::Lent(val)),
        None => None,
    }
}

fn made<'a>(found: Option<Val>) -> Option<Seen<'a>>
    ensures { option_map seen result ≡ found }
{
    match found {
        Some(val) => Some(Seen::Made(val)),
        None => None,
    }
}

fn nth(values: Vals, place: usize) -> Option<Val>
    ensures { result ≡ slice_get values place }
{
    values.into_iter().nth(place)
}

fn byte_at(bytes: &[u8], place: usize) -> Option<Val>
    ensures { result ≡ slice_get (map (λ byte. Val.Int (pos byte)) bytes.now) place }
{
    match bytes.get(place) {
        Some(byte) => Some(Val::Int(i64::from(*byte))),
        None => None,
    }
}
