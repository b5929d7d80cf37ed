ghost use Rattle.std.specs.Prelude.{◌≡◌, ◌↔◌, ◌<◌, ◌≤◌, ◌%◌, ◌⊎◌, ℕ, true, length, Option, Some, None, IfOk, IsTrue, vec_len, slice_index_or};
ghost use Rattle.pt_choice.specs.Order.{IsShorter};
ghost use Rattle.pt_case.specs.Ending.{is_failure};
ghost use Rattle.pt_par.specs.Least.{IsBetterRecord, IsLeast, IsEarlier, MayHold, Covers};

use crate::Hit;
use crate::word::{Lowest, Word, lower};
use pt_case::{Check, ChoiceLists, Record, a_list_has_one_record, replay};
use pt_choice::{Choices, NoMemory, shortlex};
use std::alloc::Global;
use std::cmp::Ordering::Less;
use std::marker::Brand;
use std::sync::atomic::AtomicIn;
use std::sync::atomic::Ordering::SeqCst;
use std::thread;
use std::thread::Threads;

/// The least place whose list is better than a record that fails, with the list's record; none exactly where none is.
///
/// The answer is that of one worker. How many lists after that place are replayed as well depends on the workers: one
/// worker replays none, and several pass over what they know to be higher.
///
/// # Errors
///
/// `NoMemory` where memory ran out, and for no other reason.
pub fn first_better<R: Threads + Sync, C: Check>(
    rt: &R,
    alloc: Global,
    check: &C,
    best: &Record,
    lists: &ChoiceLists,
    workers: u32,
) -> Result<Option<Hit>, NoMemory>
    requires fails { is_failure best.now.ending ≡ true }
    requires few { length lists.now ≤ 1024 }
    requires workers { (1 ≤ workers) × (workers ≤ 16) }
    ensures { IfOk result (λ hit. IsLeast (C.step check.now) best.now lists.now hit) }
{
    let workers = (workers as usize).min(lists.len().max(1));
    searched::<R, C, Brand>(rt, alloc, check, best, lists, workers)
}

// The same, where the rule of the word is what may be said of these lists.
fn searched<R: Threads + Sync, C: Check, W: Word + Sync>(
    rt: &R,
    alloc: Global,
    check: &C,
    best: &Record,
    lists: &ChoiceLists,
    workers: usize,
) -> Result<Option<Hit>, NoMemory>
    requires fails { is_failure best.now.ending ≡ true }
    requires few { length lists.now ≤ 1024 }
    requires workers { (1 ≤ workers) × (workers ≤ 16) }
    requires rule { (word : ℕ) → W.may_hold word ↔ MayHold (C.step check.now) best.now lists.now word }
    ensures { IfOk result (λ hit. IsLeast (C.step check.now) best.now lists.now hit) }
{
    let word: AtomicIn<Lowest<W>> = AtomicIn::new(lists.len() as u64);
    let search = |worker: usize| -> Result<Option<Hit>, NoMemory>
        requires { (is_failure best.now.ending ≡ true) × (length lists.now ≤ 1024) × (worker < workers)
            × ((word : ℕ) → W.may_hold word ↔ MayHold (C.step check.now) best.now lists.now word) }
        ensures { IfOk result (λ hit. Covers (C.step check.entry.now) best.entry.now lists.entry.now (λ place. place % workers ≡ worker) hit) }
    { share(alloc, check, best, lists, &word, worker, workers) };
    let shares = thread::map_indices(rt, alloc, workers, &search)?;
    least(check, best, lists, shares)
}

// One worker's share: the places whose remainder by the number of workers is the worker's number, up to its first better
// list. A place is passed over where the word says that a lower one is better.
fn share<C: Check, W: Word + Sync>(
    alloc: Global,
    check: &C,
    best: &Record,
    lists: &ChoiceLists,
    word: &AtomicIn<Lowest<W>>,
    worker: usize,
    workers: usize,
) -> Result<Option<Hit>, NoMemory>
    requires fails { is_failure best.now.ending ≡ true }
    requires few { length lists.now ≤ 1024 }
    requires workers { worker < workers }
    requires rule { (word : ℕ) → W.may_hold word ↔ MayHold (C.step check.now) best.now lists.now word }
    ensures { IfOk result (λ hit. Covers (C.step check.now) best.now lists.now (λ place. place % workers ≡ worker) hit) }
{
    let block = lists.as_slice();
    for place in 0..block.len() {
        if place % workers != worker || word.load(SeqCst) < place as u64 {
            continue;
        }
        if let Some(rec) = better(alloc, check, best, &block[place])? {
            lower(check, best, lists, word, place);
            return Ok(Some(Hit { at: place, rec }));
        }
    }
    Ok(None)
}

// The list's record, if the list is better.
fn better<C: Check>(
    alloc: Global,
    check: &C,
    best: &Record,
    list: &Choices,
) -> Result<Option<Record>, NoMemory>
    requires { is_failure best.now.ending ≡ true }
    ensures { IfOk result (λ found. IsBetterRecord (C.step check.now) list.now best.now found) }
{
    a_list_has_one_record(check);
    let rec = replay(alloc, check, list)?;
    if improves(&rec, best) {
        return Ok(Some(rec));
    }
    Ok(None)
}

// Whether the two records end alike, and the choices of the one come before the other's.
fn improves(rec: &Record, best: &Record) -> bool
    ensures { IsTrue result ↔ ((rec.now.ending ≡ best.now.ending) × IsShorter rec.now.choices best.now.choices) }
{
    rec.ending == best.ending && shortlex(rec.choices.as_slice(), best.choices.as_slice()) == Less
}

// The least of the shares' hits.
fn least<C: Check>(
    check: &C,
    best: &Record,
    lists: &ChoiceLists,
    shares: Vec<Result<Option<Hit>, NoMemory>>,
) -> Result<Option<Hit>, NoMemory>
    requires some { 1 ≤ vec_len shares }
    requires each { (i : ℕ) (d : _) → i < vec_len shares → IfOk (slice_index_or shares.items i d) (λ hit.
        Covers (C.step check.now) best.now lists.now (λ place. place % vec_len shares ≡ i) hit) }
    ensures { IfOk result (λ hit. IsLeast (C.step check.now) best.now lists.now hit) }
{
    let mut least = None;
    for hit in shares {
        least = earlier(least, hit?);
    }
    Ok(least)
}

// The one at the lower place.
fn earlier(one: Option<Hit>, other: Option<Hit>) -> Option<Hit>
    ensures { IsEarlier one other result }
{
    match (one, other) {
        (Some(one), Some(other)) if one.at <= other.at => Some(one),
        (_, Some(other)) => Some(other),
        (one, None) => one,
    }
}
