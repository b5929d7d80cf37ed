//! A part made simplest at once, where its choices depend on one another so that no single one of them can be lowered. The lists are strangers.

use crate::proposer::spans::regions;
use crate::variation::{Part, Variation, simplest};
use pt_case::Span;
use pt_choice::{Choice, NoMemory};
use std::alloc::Global;

pub(crate) fn variations(
    alloc: Global,
    choices: &[Choice],
    spans: &[Span],
) -> Result<Vec<Option<Variation>>, NoMemory> {
    let mut all = Vec::new(alloc);
    for span in &regions(alloc, spans)? {
        let part = Part::of(*span);
        if changes(alloc, choices, part) {
            all.push(Some(Variation::Simplest(part)))?;
        }
    }
    Ok(all)
}

// Whether a choice of the part is not the simplest of its sort.
fn changes(alloc: Global, choices: &[Choice], part: Part) -> bool {
    for (place, choice) in choices.iter().enumerate() {
        if part.has(place) && *choice != simplest(alloc, choice) {
            return true;
        }
    }
    false
}
