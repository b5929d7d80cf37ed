//! After a span was left out, its siblings behind it that have its label: two of them at once, then four and so on, as long as that is better.

ghost use Rattle.std.specs.Prelude.{◌≡◌, true, IfOk};
ghost use Rattle.pt_case.specs.Ending.{is_failure};
ghost use Rattle.pt_shrink.specs.Progress.{GoesOn};
ghost use Rattle.pt_shrink.specs.Outcome.{best_with, Lengthens};

use crate::Log;
use crate::attempt::{Gain, try_stranger};
use crate::proposer::spans::regions;
use crate::variation::{Part, Variation};
use pt_case::{Check, Record, Span};
use pt_choice::NoMemory;
use std::alloc::Global;

/// Leaves out more of what a deletion's slot left out of the old record. The answer is the best record then.
pub(crate) fn run_on<C: Check>(
    alloc: Global,
    check: &C,
    old: &Record,
    slot: u32,
    gain: Gain,
    log: &mut Log,
    budget: usize,
) -> Result<Record, NoMemory>
    requires { is_failure gain.rec.ending ≡ true }
    ensures { IfOk result (λ rec. GoesOn (C.step check.now) budget gain.rec log.old rec log.new) }
{
    let regions = regions(alloc, old.spans.as_slice())?;
    let Some(gone) = regions.get(slot as usize) else {
        return Ok(gain.rec);
    };
    let mut best = gain.rec;
    let mut count: usize = 2;
    while let Some(further) = run_further(alloc, check, &best, log, budget, *gone, count)? {
        best = further.rec;
        count = count.saturating_mul(2);
    }
    Ok(best)
}

// Leaves out so many spans that follow one another where the span stood that went.
fn run_further<C: Check>(
    alloc: Global,
    check: &C,
    best: &Record,
    log: &mut Log,
    budget: usize,
    gone: Span,
    count: usize,
) -> Result<Option<Gain>, NoMemory>
    requires { is_failure best.now.ending ≡ true }
    ensures goes_on { IfOk result (λ found. GoesOn (C.step check.now) budget best.now log.old (best_with found best.now) log.new) }
    ensures longer { IfOk result (λ found. Lengthens found log.old log.new) }
{
    let Some(part) = row(best.spans.as_slice(), gone, count) else {
        return Ok(None);
    };
    let list = Variation::Without(part).made(alloc, best.choices.as_slice())?;
    try_stranger(alloc, check, best, log, budget, list)
}

// What so many spans cover that stand one behind the other, from the first one on that begins where the given one did: all nonempty, of its label, and
// with one parent.
fn row(spans: &[Span], gone: Span, count: usize) -> Option<Part> {
    let mut first: Option<Span> = None;
    let mut found: usize = 0;
    for span in spans {
        match first {
            None => {
                if is_like(*span, gone) && span.from == gone.from {
                    first = Some(*span);
                    found = 1;
                }
            }
            Some(start) => {
                if span.parent == start.parent {
                    if !is_like(*span, gone) {
                        return None;
                    }
                    found = found.saturating_add(1);
                    if found == count {
                        return Some(Part {
                            from: usize::from(start.from),
                            to: usize::from(span.to),
                        });
                    }
                }
            }
        }
    }
    None
}

// Whether the span is nonempty and has the label of the one that went.
fn is_like(span: Span, gone: Span) -> bool {
    span.label == gone.label && Part::of(span).len() > 0
}
