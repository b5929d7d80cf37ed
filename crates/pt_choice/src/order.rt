//! The order by which examples are reduced: fewer choices first, and then lower ones.
//!
//! A shorter list is mostly the plainer example, whatever its choices are, so the length counts before all else.

ghost use Rattle.std.specs.Prelude.{◌≡◌, length};
ghost use Rattle.std.specs.Ordering.{nat_cmp, ordering_then};
ghost use Rattle.std.specs.Cmp.Lexicographic.{slice_cmp};
ghost use Rattle.pt_choice.specs.Order.{integer_place, cmp_choice, shortlex, IsBelow, IsShorter, IsStrictOrder};

use crate::{Choice, Octets};
use std::cmp::Ordering;

/// Booleans come first, then integers, bytes and texts. False comes before true, integers stand as 0, 1, -1, 2, -2
/// and so on, and of two lists the shorter is lower.
pub fn cmp_choice(a: &Choice, b: &Choice) -> Ordering
    ensures { result ≡ cmp_choice a.now b.now }
{
    match (a, b) {
        (Choice::Bool(a), Choice::Bool(b)) => a.cmp(b),
        (Choice::Bool(_), _) => Ordering::Less,
        (_, Choice::Bool(_)) => Ordering::Greater,
        (Choice::Int(a), Choice::Int(b)) => cmp_integers(*a, *b),
        (Choice::Int(_), _) => Ordering::Less,
        (_, Choice::Int(_)) => Ordering::Greater,
        (Choice::Bytes(a), Choice::Bytes(b)) => cmp_octets(a, b),
        (Choice::Bytes(_), Choice::Text(_)) => Ordering::Less,
        (Choice::Text(_), Choice::Bytes(_)) => Ordering::Greater,
        (Choice::Text(a), Choice::Text(b)) => cmp_octets(a, b),
    }
}

// By magnitude, and of a number and its negative the positive one first.
fn cmp_integers(a: i128, b: i128) -> Ordering
    ensures { result ≡ nat_cmp (integer_place a) (integer_place b) }
{
    a.unsigned_abs().cmp(&b.unsigned_abs()).then(b.cmp(&a))
}

fn cmp_octets(a: &Octets, b: &Octets) -> Ordering
    ensures { result
        ≡ ordering_then (nat_cmp (length a.now) (length b.now)) (slice_cmp nat_cmp a.now b.now) }
{
    a.len().cmp(&b.len()).then(a.as_slice().cmp(&b.as_slice()))
}

/// The shorter list comes first. Of two lists as long as each other, the one with the lower choice at the first place
/// where they differ does.
pub fn shortlex(a: &[Choice], b: &[Choice]) -> Ordering
    ensures { result ≡ shortlex a.now b.now }
{
    match a.len().cmp(&b.len()) {
        Ordering::Equal => cmp_members(a, b),
        unequal => unequal,
    }
}

fn cmp_members(a: &[Choice], b: &[Choice]) -> Ordering
    requires { length a.now ≡ length b.now }
    ensures { result ≡ slice_cmp cmp_choice a.now b.now }
{
    for (x, y) in a.iter().zip(b) {
        let order = cmp_choice(x, y);
        if order != Ordering::Equal {
            return order;
        }
    }
    Ordering::Equal
}

/// Both orders are strict and total: of two different choices, or lists, exactly one comes before the other. This
/// function does nothing: its contract is that law.
pub fn orders_are_total()
    ensures choices { IsStrictOrder IsBelow }
    ensures lists { IsStrictOrder IsShorter }
{}
