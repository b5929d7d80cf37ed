//! What proposers ask of a record's spans and choices.

use crate::variation::Part;
use pt_case::Span;
use pt_choice::{Choice, NoMemory};
use std::alloc::Global;

/// The nonempty spans in order, those passed over whose parent has the same two ends.
pub(crate) fn regions(alloc: Global, spans: &[Span]) -> Result<Vec<Span>, NoMemory> {
    let mut regions = Vec::new(alloc);
    for span in spans {
        if Part::of(*span).len() > 0 && !covers_its_parent(spans, *span) {
            regions.push(*span)?;
        }
    }
    Ok(regions)
}

fn covers_its_parent(spans: &[Span], span: Span) -> bool {
    match span.parent {
        None => false,
        Some(number) => match spans.get(usize::from(number)) {
            None => false,
            Some(parent) => Part::of(*parent) == Part::of(span),
        },
    }
}

/// Whether the choice is an integer other than zero.
pub(crate) fn is_nonzero(choice: &Choice) -> bool {
    match choice {
        Choice::Int(value) => *value != 0,
        _ => false,
    }
}
