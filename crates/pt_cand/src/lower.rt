//! The lower integers that are tried in place of one.

ghost use Rattle.std.specs.Prelude.{◌≡◌, ◌<◌, pos, ◌∷◌, [], take, MatchOption, slice_index_or};
ghost use Rattle.std.specs.Ordering.{int_eq};
ghost use Rattle.std.specs.List.{list_any};
ghost use Rattle.pt_choice.specs.Limits.{IsBounded};
ghost use Rattle.pt_cand.specs.Left.{once_after};
ghost use Rattle.pt_cand.specs.Lower.{lower_integers, nearer};

/// Moved toward zero by so much, and no further than zero.
pub(crate) fn nearer(value: i128, by: u64) -> i128
    requires { IsBounded value }
    ensures { result ≡ nearer value by }
{
    let left = i128::from((value.unsigned_abs() as u64).saturating_sub(by));
    if value < 0 { -left } else { left }
}

// The integer itself, and behind it those that are tried in its place, with repeats.
fn numbered(value: i128, number: usize) -> i128
    requires bounded { IsBounded value }
    requires within { number < 5 }
    ensures { result ≡ slice_index_or (value ∷ lower_integers value) number (pos 0) }
{
    match number {
        0 => value,
        1 => 0,
        2 => i128::from(value.unsigned_abs() as u64),
        3 => value / 2,
        _ => nearer(value, 1),
    }
}

// Whether an earlier one of them is the same.
fn is_repeat(value: i128, number: usize) -> bool
    requires bounded { IsBounded value }
    requires within { number < 5 }
    ensures { result ≡ list_any (int_eq (slice_index_or (value ∷ lower_integers value) number (pos 0)))
        (take number (value ∷ lower_integers value)) }
{
    let low = numbered(value, number);
    for earlier in 0..number {
        if numbered(value, earlier) == low {
            return true;
        }
    }
    false
}

/// The next lower integer where so many were looked at, and how many were looked at with it.
pub(crate) fn next_integer(value: i128, looked: usize) -> Option<(i128, usize)>
    requires { IsBounded value }
    ensures { MatchOption result
        (once_after int_eq (value ∷ lower_integers value) looked ≡ [])
        (λ next. once_after int_eq (value ∷ lower_integers value) looked
        ≡ next.0 ∷ once_after int_eq (value ∷ lower_integers value) next.1) }
{
    for number in looked..4 {
        if !is_repeat(value, number + 1) {
            return Some((numbered(value, number + 1), number + 1));
        }
    }
    None
}
