//! A list made empty. A part that begins with a true is often a member and what follows it, so it is replaced by the false that ends a list, or
//! by two of them. The lists are strangers.

use crate::proposer::spans::regions;
use crate::variation::{Part, Variation};
use pt_case::Span;
use pt_choice::{Choice, NoMemory};
use std::alloc::Global;

pub(crate) fn variations(
    alloc: Global,
    choices: &[Choice],
    spans: &[Span],
) -> Result<Vec<Option<Variation>>, NoMemory> {
    let mut all = Vec::new(alloc);
    for span in &regions(alloc, spans)? {
        let part = Part::of(*span);
        if part.len() >= 2 && matches!(choices.get(part.from), Some(Choice::Bool(true))) {
            all.push(Some(Variation::Falses(part, 1)))?;
            all.push(if part.len() > 2 {
                Some(Variation::Falses(part, 2))
            } else {
                None
            })?;
        }
    }
    Ok(all)
}
