//! Choices and kinds as tables write them.

use pt_choice::{Choice, Choices, Kind, NoMemory, Octets, Shape};
use std::alloc::Global;

/// A choice as plain data.
#[derive(Clone, Copy, Debug)]
pub enum Sample {
    Flag(bool),
    Number(i128),
    Bytes(&'static [u8]),
    Text(&'static [u8]),
}

pub fn made(alloc: Global, sample: Sample) -> Result<Choice, NoMemory> {
    match sample {
        Sample::Flag(value) => Ok(Choice::Bool(value)),
        Sample::Number(value) => Ok(Choice::Int(value)),
        Sample::Bytes(bytes) => Ok(Choice::Bytes(Octets::of(alloc, bytes)?)),
        Sample::Text(places) => Ok(Choice::Text(Octets::of(alloc, places)?)),
    }
}

pub fn choices_of(alloc: Global, samples: &[Sample]) -> Result<Choices, NoMemory> {
    let mut choices = Choices::empty(alloc);
    for sample in samples {
        choices.push(made(alloc, *sample)?)?;
    }
    Ok(choices)
}

/// The kind of this shape, if it is within its limits.
pub fn kind_of(shape: Shape) -> Option<Kind> {
    match shape {
        Shape::Bool { chance } => Kind::of_bool(chance),
        Shape::Int { lo, hi } => Kind::of_int(lo, hi),
        Shape::Bytes { min, max } => Kind::of_bytes(min, max),
        Shape::Text { min, max, size } => Kind::of_text(min, max, size),
    }
}
