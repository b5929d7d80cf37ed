//! An operation left out with one of its operands, and the other one negated: what was subtracted stands alone. The part that goes has one
//! integer, and the nearest one behind it changes its sign, or the nearest one before it. The lists are strangers.

use crate::proposer::spans::{is_nonzero, regions};
use crate::variation::{Part, Variation};
use pt_case::Span;
use pt_choice::{Choice, NoMemory};
use std::alloc::Global;

pub(crate) fn variations(
    alloc: Global,
    choices: &[Choice],
    spans: &[Span],
) -> Result<Vec<Option<Variation>>, NoMemory> {
    let mut all = Vec::new(alloc);
    for span in &regions(alloc, spans)? {
        let part = Part::of(*span);
        if part.len() >= 2 && has_one_integer(choices, part) {
            if let Some(place) = nearest_behind(choices, part) {
                all.push(Some(Variation::Negated(part, place)))?;
            }
            if let Some(place) = nearest_before(choices, part) {
                all.push(Some(Variation::Negated(part, place)))?;
            }
        }
    }
    Ok(all)
}

// Whether the part holds exactly one integer, which is not zero.
fn has_one_integer(choices: &[Choice], part: Part) -> bool {
    let mut has_one = false;
    for (place, choice) in choices.iter().enumerate() {
        if part.has(place) && matches!(choice, Choice::Int(_)) {
            if has_one || !is_nonzero(choice) {
                return false;
            }
            has_one = true;
        }
    }
    has_one
}

fn nearest_behind(choices: &[Choice], part: Part) -> Option<usize> {
    for (place, choice) in choices.iter().enumerate() {
        if place >= part.to && is_nonzero(choice) {
            return Some(place);
        }
    }
    None
}

fn nearest_before(choices: &[Choice], part: Part) -> Option<usize> {
    let mut nearest = None;
    for (place, choice) in choices.iter().enumerate() {
        if place >= part.from {
            return nearest;
        }
        if is_nonzero(choice) {
            nearest = Some(place);
        }
    }
    nearest
}
