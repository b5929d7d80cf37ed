ghost use Rattle.std.specs.Prelude.{◌≡◌, ◌&&◌, true, nat_le, nat_lt, IfOk, IsOk, SomeIff};
ghost use Rattle.std.specs.List.{list_all};
ghost use Rattle.pt_choice.specs.declared.kind.Shape.TheVariants.{Bool, Int, Bytes, Text};
ghost use Rattle.pt_choice.specs.Kind.{IsShape, admits, simplest, fit, AsksSmall};

use crate::{Choice, NoMemory, Octets};
use std::alloc::Global;
use std::marker::Model;

const GREATEST_WIDTH: i128 = u64::MAX as i128;

const MOST_PLACES: u8 = 64;

const LARGEST_ALPHABET: u16 = 256;

/// What a generator asks for: the sort of a choice, and its bounds, which are themselves allowed.
#[derive(Clone, Copy, Debug, PartialEq, Eq)]
pub enum Shape {
    /// True with a chance of `chance` sixteenths.
    Bool { chance: u8 },
    Int { lo: i128, hi: i128 },
    /// The bounds are those of the length.
    Bytes { min: u8, max: u8 },
    /// The bounds are those of the length, and each place is below `size`.
    Text { min: u8, max: u8, size: u16 },
}

/// A shape within its limits.
#[derive(Clone, Copy, Debug, PartialEq, Eq)]
pub struct Kind {
    shape: Shape,
}

impl Model for Kind {
    ghost use Rattle.pt_choice.specs.declared.kind.Shape.{Shape};
    ghost use Rattle.pt_choice.specs.Kind.{IsShape};

    ghost Value = { Shape };

    ghost view = { λ kind. kind.shape };

    ghost invariant = { λ kind. IsShape kind.shape };

    ghost inverse = { λ shape. record { shape = shape } };
}

impl Kind {
    /// The kind of booleans with this chance in sixteenths: 1 to 15, so that neither answer is certain.
    pub fn of_bool(chance: u8) -> Option<Kind>
        ensures { SomeIff result (IsShape (Bool chance)) (Bool chance) }
    {
        if chance < 1 || chance > 15 {
            return None;
        }
        let shape = Shape::Bool { chance };
        Some(Kind { shape })
    }

    /// The kind of integers from `lo` to `hi`. They are offsets from the number that reductions go toward, so 0 is
    /// among them, and `hi` is at most 2^64 - 1 above `lo`.
    pub fn of_int(lo: i128, hi: i128) -> Option<Kind>
        ensures { SomeIff result (IsShape (Int lo hi)) (Int lo hi) }
    {
        if lo > 0 || hi < 0 {
            return None;
        }
        let width = hi.checked_sub(lo)?;
        if width > GREATEST_WIDTH {
            return None;
        }
        let shape = Shape::Int { lo, hi };
        Some(Kind { shape })
    }

    /// The kind of lists of `min` to `max` bytes, of which there are at most 64.
    pub fn of_bytes(min: u8, max: u8) -> Option<Kind>
        ensures { SomeIff result (IsShape (Bytes min max)) (Bytes min max) }
    {
        if min > max || max > MOST_PLACES {
            return None;
        }
        let shape = Shape::Bytes { min, max };
        Some(Kind { shape })
    }

    /// The kind of texts of `min` to `max` characters, of which there are at most 64, from an alphabet of `size`
    /// characters, of which there are 1 to 256.
    pub fn of_text(min: u8, max: u8, size: u16) -> Option<Kind>
        ensures { SomeIff result (IsShape (Text min max size)) (Text min max size) }
    {
        if min > max || max > MOST_PLACES || size < 1 || size > LARGEST_ALPHABET {
            return None;
        }
        let shape = Shape::Text { min, max, size };
        Some(Kind { shape })
    }

    pub fn shape(&self) -> Shape
        ensures same { result ≡ self.now }
        ensures within { IsShape self.now }
    {
        self.shape
    }
}

/// Whether the choice answers a question of this kind: it has the kind's sort and is within its bounds.
pub fn admits(kind: &Kind, choice: &Choice) -> bool
    ensures { result ≡ admits kind.now choice.now }
{
    match (kind.shape(), choice) {
        (Shape::Bool { .. }, Choice::Bool(_)) => true,
        (Shape::Int { lo, hi }, Choice::Int(value)) => lo <= *value && *value <= hi,
        (Shape::Bytes { min, max }, Choice::Bytes(bytes)) => is_within(bytes.len(), min, max),
        (Shape::Text { min, max, size }, Choice::Text(places)) => {
            is_within(places.len(), min, max) && are_below(places.as_slice(), size)
        }
        _ => false,
    }
}

fn is_within(len: usize, min: u8, max: u8) -> bool
    ensures { result ≡ (nat_le min len && nat_le len max) }
{
    usize::from(min) <= len && len <= usize::from(max)
}

fn are_below(places: &[u8], size: u16) -> bool
    ensures { result ≡ list_all (λ place. nat_lt place size) places.now }
{
    places.iter().all(|place| u16::from(*place) < size)
}

/// The simplest choice of a kind, toward which every reduction goes. For a boolean or an integer it never fails.
pub fn simplest(alloc: Global, kind: &Kind) -> Result<Choice, NoMemory>
    ensures value { IfOk result (λ choice. choice ≡ simplest kind.now) }
    ensures admitted { IfOk result (λ choice. admits kind.now choice ≡ true) }
    ensures small { AsksSmall kind.now → IsOk result }
{
    match kind.shape() {
        Shape::Bool { .. } => Ok(Choice::Bool(false)),
        Shape::Int { .. } => Ok(Choice::Int(0)),
        Shape::Bytes { min, .. } => Ok(Choice::Bytes(Octets::zeros(alloc, min)?)),
        Shape::Text { min, .. } => Ok(Choice::Text(Octets::zeros(alloc, min)?)),
    }
}

/// The choice itself where the kind admits it, and else the simplest one: so an answer to one question serves for
/// another. For kinds of booleans and integers it never fails.
pub fn fit(alloc: Global, kind: &Kind, choice: &Choice) -> Result<Choice, NoMemory>
    ensures value { IfOk result (λ fitted. fitted ≡ fit kind.now choice.now) }
    ensures admitted { IfOk result (λ fitted. admits kind.now fitted ≡ true) }
    ensures small { AsksSmall kind.now → IsOk result }
{
    if admits(kind, choice) {
        choice.copy()
    } else {
        simplest(alloc, kind)
    }
}
