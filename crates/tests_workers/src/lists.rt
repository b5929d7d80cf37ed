use pt_case::ChoiceLists;
use pt_choice::{Choice, Choices, NoMemory};
use std::alloc::Global;

/// The list of one integer.
pub fn list(alloc: Global, value: i128) -> Result<Choices, NoMemory> {
    let mut choices = Choices::empty(alloc);
    choices.push(Choice::Int(value))?;
    Ok(choices)
}

/// Lists of one integer each.
pub fn lists(alloc: Global, values: &[i128]) -> Result<ChoiceLists, NoMemory> {
    let mut all = ChoiceLists::empty(alloc);
    for value in values {
        all.push(list(alloc, *value)?)?;
    }
    Ok(all)
}

/// So many lists of one integer, of which those before a place hold the one value, and the others the other.
pub fn block(
    alloc: Global,
    size: usize,
    place: usize,
    before: i128,
    after: i128,
) -> Result<ChoiceLists, NoMemory> {
    let mut all = ChoiceLists::empty(alloc);
    for at in 0..size {
        all.push(list(alloc, if at < place { before } else { after })?)?;
    }
    Ok(all)
}
