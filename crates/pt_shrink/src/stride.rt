//! A step that moved integers only, so that it can be taken again, several times at once.

use pt_choice::{Choice, Choices, NoMemory};
use std::alloc::Global;

// One integer's part of a step.
#[derive(Clone, Copy, Debug)]
struct Move {
    place: usize,
    by: i128,
    // It came nearer to zero, and did not pass it.
    toward: bool,
}

/// A step, and how many times its size is tried next.
#[derive(Drop)]
pub(crate) struct Stride {
    moves: Vec<Move>,
    pub(crate) factor: u64,
    // Each size so far was better, so that the next one is twice as large.
    growing: bool,
}

impl Stride {
    /// The step from the one list to the other, which was doubled so often. No step where they differ in anything but integers, or where the
    /// first integer in which they differ did not come nearer to zero.
    pub(crate) fn between(
        alloc: Global,
        old: &[Choice],
        new: &[Choice],
        doubled: u32,
    ) -> Result<Stride, NoMemory> {
        let moves = moves_between(alloc, old, new)?;
        if moves.len() == 1 {
            return single(alloc, moves[0], doubled);
        }
        let factor = if moves.is_empty() { 0 } else { 2 };
        Ok(Stride {
            moves,
            factor,
            growing: true,
        })
    }

    /// The list with the step taken so many times more. None where an integer that comes nearer to zero would pass it.
    pub(crate) fn taken(
        &self,
        alloc: Global,
        choices: &[Choice],
        factor: u64,
    ) -> Result<Option<Choices>, NoMemory> {
        let mut list = Choices::empty(alloc);
        let mut next: usize = 0;
        for (place, choice) in choices.iter().enumerate() {
            match self.moves.get(next) {
                Some(step) if step.place == place => {
                    let Some(value) = moved(choice, *step, factor) else {
                        return Ok(None);
                    };
                    list.push(Choice::Int(value))?;
                    next = next.saturating_add(1);
                }
                _ => list.push(choice.copy()?)?,
            }
        }
        Ok(Some(list))
    }

    /// What is tried after the step was taken so many times and was better.
    pub(crate) fn after(self, factor: u64) -> Stride {
        if self.growing && factor == self.factor {
            return Stride {
                factor: factor.saturating_mul(2),
                ..self
            };
        }
        Stride {
            factor: factor / 2,
            growing: false,
            ..self
        }
    }
}

// The step of one integer. What it asks for was tried by itself, in doubled sizes, so halves of the largest are left.
fn single(alloc: Global, step: Move, doubled: u32) -> Result<Stride, NoMemory> {
    let mut factor: u64 = 1;
    let mut all: i128 = 1;
    for _ in 0..doubled {
        factor = factor.saturating_mul(2);
        all = all.saturating_mul(2).saturating_add(1);
    }
    let mut moves = Vec::new(alloc);
    moves.push(Move {
        by: step.by.checked_div(all).unwrap_or(step.by),
        ..step
    })?;
    Ok(Stride {
        moves,
        factor,
        growing: false,
    })
}

// The integers that moved, in order; none where there is no step.
fn moves_between(alloc: Global, old: &[Choice], new: &[Choice]) -> Result<Vec<Move>, NoMemory> {
    let mut moves: Vec<Move> = Vec::new(alloc);
    if old.len() != new.len() {
        return Ok(moves);
    }
    for (place, before) in old.iter().enumerate() {
        let Some(here) = new.get(place) else {
            return Ok(moves);
        };
        if before != here {
            let Some(step) = move_between(place, before, here) else {
                return Ok(Vec::new(alloc));
            };
            if moves.is_empty() && !step.toward {
                return Ok(moves);
            }
            moves.push(step)?;
        }
    }
    Ok(moves)
}

fn move_between(place: usize, before: &Choice, here: &Choice) -> Option<Move> {
    match (before, here) {
        (Choice::Int(before), Choice::Int(here)) => Some(Move {
            place,
            by: here.checked_sub(*before)?,
            toward: is_toward(*before, *here),
        }),
        _ => None,
    }
}

fn is_toward(before: i128, here: i128) -> bool {
    (0 <= here && here < before) || (before < here && here <= 0)
}

// The integer moved by so many times the step.
fn moved(choice: &Choice, step: Move, factor: u64) -> Option<i128> {
    let Choice::Int(value) = choice else {
        return None;
    };
    let by = step.by.checked_mul(i128::from(factor))?;
    if step.toward && value.unsigned_abs() < by.unsigned_abs() {
        return None;
    }
    value.checked_add(by)
}
