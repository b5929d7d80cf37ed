//! Two lists made into one. A list ends with a false, and each of its members begins with a true: without a false and the true behind it, the
//! members of the second list belong to the first. The lists are strangers.

use crate::variation::{Part, Variation};
use pt_choice::{Choice, NoMemory};
use std::alloc::Global;

pub(crate) fn variations(
    alloc: Global,
    choices: &[Choice],
) -> Result<Vec<Option<Variation>>, NoMemory> {
    let mut all = Vec::new(alloc);
    let mut after_false = false;
    for (place, choice) in choices.iter().enumerate() {
        if after_false && matches!(choice, Choice::Bool(true)) {
            let part = Part {
                from: place.saturating_sub(1),
                to: place.saturating_add(1),
            };
            all.push(Some(Variation::Without(part)))?;
        }
        after_false = matches!(choice, Choice::Bool(false));
    }
    Ok(all)
}
