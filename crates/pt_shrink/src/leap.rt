//! After a step that moved integers only, longer steps the same way: twice as long as long as they are better, and then the halves.

ghost use Rattle.std.specs.Prelude.{◌≡◌, true, IfOk};
ghost use Rattle.pt_case.specs.Ending.{is_failure};
ghost use Rattle.pt_shrink.specs.Progress.{GoesOn};
ghost use Rattle.pt_shrink.specs.Outcome.{best_with, Lengthens};

use crate::Log;
use crate::attempt::{Gain, try_stranger};
use crate::stride::Stride;
use pt_case::{Check, Record};
use pt_choice::NoMemory;
use std::alloc::Global;

/// Leaps on from a step that was better. The answer is the best record then.
pub(crate) fn leap<C: Check>(
    alloc: Global,
    check: &C,
    old: &Record,
    gain: Gain,
    log: &mut Log,
    budget: usize,
) -> Result<Record, NoMemory>
    requires { is_failure gain.rec.ending ≡ true }
    ensures { IfOk result (λ rec. GoesOn (C.step check.now) budget gain.rec log.old rec log.new) }
{
    let mut stride = Stride::between(
        alloc,
        old.choices.as_slice(),
        gain.rec.choices.as_slice(),
        gain.doubled,
    )?;
    let mut best = gain.rec;
    let mut factor = stride.factor;
    while let Some(further) = reach(alloc, check, &best, log, budget, &stride, &mut factor)? {
        stride = next_stride(alloc, stride, &best, &further, factor)?;
        factor = stride.factor;
        best = further.rec;
    }
    Ok(best)
}

// Takes the step so many times, and then half as many times and so on, up to the first time that is better. How many times that is stands in
// `factor` then.
fn reach<C: Check>(
    alloc: Global,
    check: &C,
    best: &Record,
    log: &mut Log,
    budget: usize,
    stride: &Stride,
    factor: &mut u64,
) -> Result<Option<Gain>, NoMemory>
    requires { is_failure best.now.ending ≡ true }
    ensures goes_on { IfOk result (λ found. GoesOn (C.step check.now) budget best.now log.old (best_with found best.now) log.new) }
    ensures longer { IfOk result (λ found. Lengthens found log.old log.new) }
{
    while *factor > 0 {
        if let Some(gain) = step(alloc, check, best, log, budget, stride, *factor)? {
            return Ok(Some(gain));
        }
        *factor /= 2;
    }
    Ok(None)
}

// Takes the step so many times.
fn step<C: Check>(
    alloc: Global,
    check: &C,
    best: &Record,
    log: &mut Log,
    budget: usize,
    stride: &Stride,
    factor: u64,
) -> Result<Option<Gain>, NoMemory>
    requires { is_failure best.now.ending ≡ true }
    ensures goes_on { IfOk result (λ found. GoesOn (C.step check.now) budget best.now log.old (best_with found best.now) log.new) }
    ensures longer { IfOk result (λ found. Lengthens found log.old log.new) }
{
    let Some(list) = stride.taken(alloc, best.choices.as_slice(), factor)? else {
        return Ok(None);
    };
    try_stranger(alloc, check, best, log, budget, list)
}

// How to go on after the step was taken so many times and was better: the same way, but where the record is not the list that was tried.
fn next_stride(
    alloc: Global,
    stride: Stride,
    old: &Record,
    gain: &Gain,
    factor: u64,
) -> Result<Stride, NoMemory> {
    let before = old.choices.as_slice();
    let here = gain.rec.choices.as_slice();
    let is_taken = match stride.taken(alloc, before, factor)? {
        Some(list) => list == gain.rec.choices,
        None => false,
    };
    if is_taken {
        Ok(stride.after(factor))
    } else {
        Stride::between(alloc, before, here, gain.doubled)
    }
}
