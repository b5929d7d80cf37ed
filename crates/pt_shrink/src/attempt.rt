//! One list is tried, and what it asks for.

ghost use Rattle.std.specs.Prelude.{◌≡◌, ◌↔◌, ◌<◌, IsTrue, true, false, ℕ, Option, Some, None, IfOk, OnOk, MatchOption, IfSome, if◌then◌else◌, ◌≤◌, ◌+◌, [], ◌∷◌, ◌++◌, length};
ghost use Rattle.std.specs.List.{Contains};
ghost use Rattle.pt_choice.specs.Order.{IsShorter};
ghost use Rattle.pt_case.specs.Ending.{is_failure};
ghost use Rattle.pt_case.specs.Better.{IsBetter};
ghost use Rattle.pt_case.specs.Run.{IsRecord};
ghost use Rattle.pt_case.specs.declared.record.Record.{Record};
ghost use Rattle.pt_cand.specs.Candidates.{IsCandidate};
ghost use Rattle.pt_found.specs.Trail.{lists_of};
ghost use Rattle.pt_shrink.specs.Progress.{IsReached, IsAt, Owes, Grows, GoesOn};
ghost use Rattle.pt_shrink.specs.Outcome.{best_after, best_with, Tells, Lengthens};

use crate::Log;
use crate::asked::asked_after;
use pt_case::{Check, Record, replay};
use pt_choice::{Choices, NoMemory, shortlex};
use std::alloc::Global;
use std::cmp::Ordering::Less;

// How many strangers may be tried in vain after each accepted list.
const STRANGERS: u32 = 20;

/// A list was better.
#[derive(Drop)]
pub(crate) struct Gain {
    /// The best record then.
    pub(crate) rec: Record,
    /// How often the step was doubled, since what it asked for was better too.
    pub(crate) doubled: u32,
}

/// What became of a list.
#[derive(Drop)]
pub(crate) enum Outcome {
    /// It was better.
    Accepted(Gain),
    /// It is not better, or it is a stranger and none may be tried now.
    Vain,
    /// It was not tried, since the budget is used up.
    Full,
}

// Whether a record fails as the best one does and is shorter.
fn improves(rec: &Record, best: &Record) -> bool
    ensures { IsTrue result ↔ ((rec.now.ending ≡ best.now.ending) × IsShorter rec.now.choices best.now.choices) }
{
    rec.ending == best.ending && shortlex(rec.choices.as_slice(), best.choices.as_slice()) == Less
}

/// Enters a list that is better, of which this is the record.
pub(crate) fn accept<C: Check>(
    check: &C,
    best: &Record,
    log: &mut Log,
    list: Choices,
    rec: &Record,
) -> Result<(), NoMemory>
    requires untried { ¬ Contains (lists_of log.old.trail) list }
    requires is { IsRecord (C.step check.now) list rec.now }
    requires better { IsBetter (C.step check.now) list best.now }
    ensures reached { OnOk result ((budget : ℕ) (first : Record) → length log.old.trail < budget →
        IsReached (C.step check.now) budget first best.now log.old (Some list) → Owes (C.step check.now) budget first best.now rec.now log.new) }
    ensures entered { OnOk result (lists_of log.new.trail ≡ lists_of log.old.trail ++ list ∷ []) }
    ensures allowed { OnOk result (log.new.allowed ≡ 20) }
{
    log.trail.add(list, true)?;
    log.allowed = STRANGERS;
    Ok(())
}

/// Enters a list that is not better.
pub(crate) fn reject<C: Check>(
    check: &C,
    best: &Record,
    log: &mut Log,
    list: Choices,
    stranger: bool,
) -> Result<(), NoMemory>
    requires untried { ¬ Contains (lists_of log.old.trail) list }
    requires worse { ¬ IsBetter (C.step check.now) list best.now }
    requires known { stranger ≡ false → IsCandidate best.now list }
    requires may { stranger ≡ true → 0 < log.old.allowed }
    ensures reached { OnOk result ((budget : ℕ) (first : Record) → length log.old.trail < budget →
        IsReached (C.step check.now) budget first best.now log.old (Some list) → IsAt (C.step check.now) budget first best.now log.new) }
    ensures entered { OnOk result (lists_of log.new.trail ≡ lists_of log.old.trail ++ list ∷ []) }
    ensures allowed { OnOk result (log.old.allowed ≡ log.new.allowed + (if stranger then 1 else 0)) }
{
    log.trail.add(list, false)?;
    if stranger {
        log.allowed -= 1;
        return Ok(());
    }
    Ok(())
}

// Replays a list that was not tried, and enters it. The answer is its record, if it is better.
fn enter<C: Check>(
    alloc: Global,
    check: &C,
    best: &Record,
    log: &mut Log,
    list: Choices,
    stranger: bool,
) -> Result<Option<Record>, NoMemory>
    requires fails { is_failure best.now.ending ≡ true }
    requires untried { ¬ Contains (lists_of log.old.trail) list }
    requires known { stranger ≡ false → IsCandidate best.now list }
    requires may { stranger ≡ true → 0 < log.old.allowed }
    ensures reached { IfOk result (λ answer. (budget : ℕ) (first : Record) → length log.old.trail < budget →
        IsReached (C.step check.now) budget first best.now log.old (Some list) →
        MatchOption answer
        (IsAt (C.step check.now) budget first best.now log.new)
        (λ rec. Owes (C.step check.now) budget first best.now rec log.new)) }
    ensures entered { IfOk result (λ answer. lists_of log.new.trail ≡ lists_of log.old.trail ++ list ∷ []) }
    ensures better { IfOk result (λ answer. IfSome answer (λ rec. (is_failure rec.ending ≡ true) × (0 < log.new.allowed))) }
{
    let rec = replay(alloc, check, &list)?;
    if improves(&rec, best) {
        accept(check, best, log, list, &rec)?;
        return Ok(Some(rec));
    }
    reject(check, best, log, list, stranger)?;
    Ok(None)
}

/// After this step the list that it asks for is tried, if it was not tried yet and the budget is not used up, and what it asks for
/// in its turn if it is better.
pub(crate) fn heed<C: Check>(
    alloc: Global,
    check: &C,
    old: &Record,
    new: Record,
    log: &mut Log,
    budget: usize,
) -> Result<Gain, NoMemory>
    requires fails { is_failure new.ending ≡ true }
    requires may { 0 < log.old.allowed }
    ensures reached { (first : Record) → Owes (C.step check.now) budget first old.now new log.old →
        IfOk result (λ gain. IsAt (C.step check.now) budget first gain.rec log.new) }
    ensures fails { IfOk result (λ gain. is_failure gain.rec.ending ≡ true) }
    ensures grows { IfOk result (λ gain. Grows budget log.old log.new) }
{
    let Some(list) = asked_after(alloc, &old.choices, &new.choices)? else {
        return Ok(Gain {
            rec: new,
            doubled: 0,
        });
    };
    if log.trail.len() >= budget || log.trail.has(&list) {
        return Ok(Gain {
            rec: new,
            doubled: 0,
        });
    }
    match enter(alloc, check, &new, log, list, true)? {
        None => Ok(Gain {
            rec: new,
            doubled: 0,
        }),
        Some(further) => {
            let gain = heed(alloc, check, &new, further, log, budget)?;
            Ok(Gain {
                rec: gain.rec,
                doubled: gain.doubled.saturating_add(1),
            })
        }
    }
}

/// Tries a list that was made of the best record. It is a candidate, or a stranger.
pub(crate) fn attempt<C: Check>(
    alloc: Global,
    check: &C,
    best: &Record,
    log: &mut Log,
    budget: usize,
    list: Choices,
    stranger: bool,
) -> Result<Outcome, NoMemory>
    requires fails { is_failure best.now.ending ≡ true }
    requires known { stranger ≡ false → IsCandidate best.now list }
    ensures goes_on { IfOk result (λ outcome. GoesOn (C.step check.now) budget best.now log.old (best_after outcome best.now) log.new) }
    ensures tells { IfOk result (λ outcome. Tells budget list stranger outcome log.old log.new) }
{
    if log.trail.has(&list) {
        return Ok(Outcome::Vain);
    }
    if log.trail.len() >= budget {
        return Ok(Outcome::Full);
    }
    if stranger && log.allowed == 0 {
        return Ok(Outcome::Vain);
    }
    match enter(alloc, check, best, log, list, stranger)? {
        None => Ok(Outcome::Vain),
        Some(rec) => Ok(Outcome::Accepted(heed(alloc, check, best, rec, log, budget)?)),
    }
}

/// Tries a stranger.
pub(crate) fn try_stranger<C: Check>(
    alloc: Global,
    check: &C,
    best: &Record,
    log: &mut Log,
    budget: usize,
    list: Choices,
) -> Result<Option<Gain>, NoMemory>
    requires fails { is_failure best.now.ending ≡ true }
    ensures goes_on { IfOk result (λ found. GoesOn (C.step check.now) budget best.now log.old (best_with found best.now) log.new) }
    ensures longer { IfOk result (λ found. Lengthens found log.old log.new) }
{
    match attempt(alloc, check, best, log, budget, list, true)? {
        Outcome::Accepted(gain) => Ok(Some(gain)),
        Outcome::Vain => Ok(None),
        Outcome::Full => Ok(None),
    }
}
