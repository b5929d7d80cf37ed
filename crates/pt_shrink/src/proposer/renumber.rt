//! A part left out, and every other integer one nearer to zero: where integers count or number what the parts stand for, all that stand behind
//! move up. The lists are strangers.

use crate::proposer::spans::{is_nonzero, regions};
use crate::variation::{Part, Variation};
use pt_case::Span;
use pt_choice::{Choice, NoMemory};
use std::alloc::Global;

pub(crate) fn variations(
    alloc: Global,
    choices: &[Choice],
    spans: &[Span],
) -> Result<Vec<Option<Variation>>, NoMemory> {
    let mut all = Vec::new(alloc);
    for span in &regions(alloc, spans)? {
        let part = Part::of(*span);
        if part.len() >= 2 && has_two_outside(choices, part) {
            all.push(Some(Variation::Renumbered(part)))?;
        }
    }
    Ok(all)
}

// Whether two integers outside the part are not zero.
fn has_two_outside(choices: &[Choice], part: Part) -> bool {
    let mut has_one = false;
    for (place, choice) in choices.iter().enumerate() {
        if !part.has(place) && is_nonzero(choice) {
            if has_one {
                return true;
            }
            has_one = true;
        }
    }
    false
}
