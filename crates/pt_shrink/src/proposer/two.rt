//! A span and the next span with its parent left out together, both of one label: members that only make sense in pairs. The lists are
//! strangers.

use crate::variation::{Part, Variation};
use pt_case::Span;
use pt_choice::NoMemory;
use std::alloc::Global;

pub(crate) fn variations(
    alloc: Global,
    spans: &[Span],
) -> Result<Vec<Option<Variation>>, NoMemory> {
    let mut all = Vec::new(alloc);
    for (number, span) in spans.iter().enumerate() {
        if let Some(next) = sibling(&spans[number + 1..], *span) {
            if next.label == span.label && Part::of(*span).len() > 0 && Part::of(next).len() > 0 {
                all.push(Some(Variation::Without(Part {
                    from: usize::from(span.from),
                    to: usize::from(next.to),
                })))?;
            }
        }
    }
    Ok(all)
}

// The first of the later spans that has this one's parent.
fn sibling(later: &[Span], span: Span) -> Option<Span> {
    for other in later {
        if other.parent == span.parent {
            return Some(*other);
        }
    }
    None
}
