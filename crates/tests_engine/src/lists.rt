//! Lists of choices as tables write them.

use pt_case::ChoiceLists;
use pt_choice::{Choice, Choices, NoMemory};
use std::alloc::Global;

/// A choice as plain data.
#[derive(Clone, Copy, Debug)]
pub enum Sample {
    Flag(bool),
    Number(i128),
}

fn made(sample: Sample) -> Choice {
    match sample {
        Sample::Flag(value) => Choice::Bool(value),
        Sample::Number(value) => Choice::Int(value),
    }
}

pub fn choices_of(alloc: Global, samples: &[Sample]) -> Result<Choices, NoMemory> {
    let mut choices = Choices::empty(alloc);
    for sample in samples {
        choices.push(made(*sample))?;
    }
    Ok(choices)
}

/// One list.
pub fn one_list(alloc: Global, samples: &[Sample]) -> Result<ChoiceLists, NoMemory> {
    let mut lists = ChoiceLists::empty(alloc);
    lists.push(choices_of(alloc, samples)?)?;
    Ok(lists)
}

/// Lists of one number each.
pub fn numbers(alloc: Global, values: &[i128]) -> Result<ChoiceLists, NoMemory> {
    let mut lists = ChoiceLists::empty(alloc);
    for value in values {
        lists.push(choices_of(alloc, &[Sample::Number(*value)])?)?;
    }
    Ok(lists)
}
