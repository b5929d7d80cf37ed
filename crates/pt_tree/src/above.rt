ghost use Rattle.std.specs.Prelude.{◌≡◌, true, ◌≤ℤ◌, ◌≤◌, length, IfOk};
ghost use Rattle.pt_choice.specs.Kind.{IsShape, admits};
ghost use Rattle.pt_choice.specs.declared.kind.Shape.TheVariants as shape;
ghost use Rattle.pt_tree.specs.Above.{AreUnder, IsNextAdmitted, IsNextInteger, IsNextList};

use pt_choice::{Choice, Kind, NoMemory, Octets, Shape};
use std::alloc::Global;

/// The least choice above this one of those that the kind admits, in the order of choices. None where this one is the
/// greatest.
pub fn next_admitted(alloc: Global, kind: &Kind, after: &Choice) -> Result<Option<Choice>, NoMemory>
    requires { admits kind.now after.now ≡ true }
    ensures { IfOk result (λ next. IsNextAdmitted kind.now after.now next) }
{
    match (kind.shape(), after) {
        (Shape::Bool { .. }, Choice::Bool(false)) => Ok(Some(Choice::Bool(true))),
        (Shape::Int { lo, hi }, Choice::Int(value)) => match next_integer(lo, hi, *value) {
            Some(next) => Ok(Some(Choice::Int(next))),
            None => Ok(None),
        },
        (Shape::Bytes { max, .. }, Choice::Bytes(bytes)) => {
            are_bytes(bytes.as_slice());
            match next_octets(alloc, 256, max, bytes)? {
                Some(next) => Ok(Some(Choice::Bytes(next))),
                None => Ok(None),
            }
        }
        (Shape::Text { max, size, .. }, Choice::Text(places)) => {
            match next_octets(alloc, size, max, places)? {
                Some(next) => Ok(Some(Choice::Text(next))),
                None => Ok(None),
            }
        }
        _ => Ok(None),
    }
}

// Integers stand as 0, 1, -1, 2, -2 and so on, so a positive one is followed by its negative, if that is within the bounds.
fn next_integer(lo: i128, hi: i128, after: i128) -> Option<i128>
    requires kind { IsShape (shape.Int lo hi) }
    requires within { (lo ≤ℤ after) × (after ≤ℤ hi) }
    ensures { IsNextInteger lo hi after result }
{
    if after > 0 {
        if lo <= -after {
            return Some(-after);
        }
        return if after < hi { Some(after + 1) } else { None };
    }
    if -after < hi {
        return Some(-after + 1);
    }
    if lo < after { Some(after - 1) } else { None }
}

// As a number is counted up: the last place that is not at its end is raised, and those behind it begin again. Where all
// are at their ends, the shortest of the longer lists follows.
fn next_octets(
    alloc: Global,
    size: u16,
    max: u8,
    after: &Octets,
) -> Result<Option<Octets>, NoMemory>
    requires size { (1 ≤ size) × (size ≤ 256) }
    requires few { length after.now ≤ max }
    ensures next { IfOk result (λ next. IsNextList size max after.now next) }
{
    let mut places = Vec::from_slice(alloc, after.as_slice())?;
    let mut index = places.len();
    while index > 0 {
        index -= 1;
        let place = places[index];
        if u16::from(place) + 1 < size {
            places[index] = place + 1;
            return Ok(Some(Octets::from(places)));
        }
        places[index] = 0;
    }
    if places.len() < usize::from(max) {
        places.push(0)?;
        return Ok(Some(Octets::from(places)));
    }
    Ok(None)
}

// What any slice of bytes keeps to.
fn are_bytes(bytes: &[u8])
    ensures { AreUnder 256 bytes.now }
{}
