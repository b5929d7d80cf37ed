//! Integers made one of the smallest ones, or turned, or lowered so that they keep their parity. Each integer has seven slots, and a slot is empty whose
//! value is not lower. The lists are strangers.

use crate::variation::{Variation, nearer_by_one};
use pt_choice::{Choice, NoMemory, cmp_choice};
use std::alloc::Global;
use std::cmp::Ordering::Less;

pub(crate) fn variations(
    alloc: Global,
    choices: &[Choice],
) -> Result<Vec<Option<Variation>>, NoMemory> {
    let mut all = Vec::new(alloc);
    for (place, choice) in choices.iter().enumerate() {
        if let Choice::Int(value) = choice {
            for low in &values(*value) {
                all.push(lowered(place, *value, *low))?;
            }
        }
    }
    Ok(all)
}

// The values that are tried in place of one, as far as they are lower.
fn values(value: i128) -> [i128; 7] {
    let turned = if value > 0 { 1 - value } else { value };
    [
        1,
        -1,
        2,
        -2,
        value.wrapping_neg(),
        turned,
        nearer_by_one(nearer_by_one(value)),
    ]
}

// The value in place of the integer, if it is lower.
fn lowered(place: usize, value: i128, low: i128) -> Option<Variation> {
    if cmp_choice(&Choice::Int(low), &Choice::Int(value)) == Less {
        Some(Variation::Put(place, low))
    } else {
        None
    }
}
