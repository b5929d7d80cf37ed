//! The lower lists of bytes or places that are tried in place of one.

ghost use Rattle.std.specs.Prelude.{◌≡◌, ◌<◌, ◌≤◌, ◌+◌, ◌*◌, ◌∷◌, [], nat_eq, take, drop, length, None, MatchOption, slice_index, slice_index_or};
ghost use Rattle.std.specs.Cmp.Lexicographic.{pointwise};
ghost use Rattle.std.specs.List.{list_any};
ghost use Rattle.pt_choice.specs.Limits.{IsFew};
ghost use Rattle.pt_cand.specs.Edit.{changed, FitsIn};
ghost use Rattle.pt_cand.specs.Left.{once_after};
ghost use Rattle.pt_cand.specs.Lower.{lower_octets, lower_place};

use crate::Change;

// The list itself, and behind it the changes that are tried, with repeats: its first half, and four for each place.
fn numbered(octets: &[u8], number: usize) -> Change
    requires few { IsFew octets.now }
    requires within { number < 2 + 4 * length octets.now }
    ensures fits { FitsIn octets.now result }
    ensures made { changed result octets.now ≡ slice_index_or (octets.now ∷ lower_octets octets.now) number [] }
{
    match number {
        0 => kept(octets.len(), octets.len()),
        1 => kept(octets.len() / 2, octets.len()),
        _ => at_place(octets, (number - 2) / 4, (number - 2) % 4),
    }
}

// A first part alone.
fn kept(front: usize, len: usize) -> Change
    ensures { result ≡ record { front = front; put = None; back = len } }
{
    Change {
        front,
        put: None,
        back: len,
    }
}

// One place removed, made zero, halved, or made one less.
fn at_place(octets: &[u8], place: usize, way: usize) -> Change
    requires within { place < length octets.now }
    requires four { way < 4 }
    ensures fits { FitsIn octets.now result }
    ensures made { changed result octets.now ≡ slice_index_or
        (lower_place (take place octets.now) (slice_index octets.now place) (drop (place + 1) octets.now)) way [] }
{
    let given = octets[place];
    let put = match way {
        0 => None,
        1 => Some(0),
        2 => Some(given / 2),
        _ => Some(given.saturating_sub(1)),
    };
    Change {
        front: place,
        put,
        back: place + 1,
    }
}

// How many places the changed list has.
fn len_after(octets: &[u8], change: Change) -> usize
    requires few { IsFew octets.now }
    requires fits { FitsIn octets.now change }
    ensures { result ≡ length (changed change octets.now) }
{
    change.front + usize::from(change.put.is_some()) + (octets.len() - change.back)
}

// A place of the changed list.
fn place_after(octets: &[u8], change: Change, at: usize) -> u8
    requires few { IsFew octets.now }
    requires fits { FitsIn octets.now change }
    requires within { at < length (changed change octets.now) }
    ensures { result ≡ slice_index (changed change octets.now) at }
{
    if at < change.front {
        return octets[at];
    }
    match change.put {
        None => octets[change.back + (at - change.front)],
        Some(put) => {
            if at == change.front {
                put
            } else {
                octets[change.back + (at - change.front) - 1]
            }
        }
    }
}

// Whether both changes make the same list.
fn are_same(octets: &[u8], one: Change, other: Change) -> bool
    requires few { IsFew octets.now }
    requires one { FitsIn octets.now one }
    requires other { FitsIn octets.now other }
    ensures { result ≡ pointwise nat_eq (changed one octets.now) (changed other octets.now) }
{
    let len = len_after(octets, one);
    if len != len_after(octets, other) {
        return false;
    }
    for at in 0..len {
        if place_after(octets, one, at) != place_after(octets, other, at) {
            return false;
        }
    }
    true
}

// Whether an earlier one of the changes makes the same list.
fn is_repeat(octets: &[u8], number: usize) -> bool
    requires few { IsFew octets.now }
    requires within { number < 2 + 4 * length octets.now }
    ensures { result ≡ list_any (pointwise nat_eq (slice_index_or (octets.now ∷ lower_octets octets.now) number []))
        (take number (octets.now ∷ lower_octets octets.now)) }
{
    let change = numbered(octets, number);
    for earlier in 0..number {
        if are_same(octets, change, numbered(octets, earlier)) {
            return true;
        }
    }
    false
}

/// The next change where so many were looked at, and how many were looked at with it.
pub(crate) fn next_change(octets: &[u8], looked: usize) -> Option<(Change, usize)>
    requires { IsFew octets.now }
    ensures { MatchOption result
        (once_after (pointwise nat_eq) (octets.now ∷ lower_octets octets.now) looked ≡ [])
        (λ next. once_after (pointwise nat_eq) (octets.now ∷ lower_octets octets.now) looked
        ≡ changed next.0 octets.now ∷ once_after (pointwise nat_eq) (octets.now ∷ lower_octets octets.now) next.1) }
{
    for number in looked..1 + 4 * octets.len() {
        if !is_repeat(octets, number + 1) {
            return Some((numbered(octets, number + 1), number + 1));
        }
    }
    None
}
