ghost use Rattle.std.specs.Prelude.{◌≡◌, ◌+◌, ◌*◌, ◌++◌, ◌<◌, ◌≤◌, ℕ, min, length, IfOk, OnOk, vec_len, slice_index_or};
ghost use Rattle.pt_rng.specs.Supplied.{supply_of_run};
ghost use Rattle.pt_case.specs.Run.{IsRun};
ghost use Rattle.pt_case.specs.Runs.{AreRuns};
ghost use Rattle.pt_par.specs.Stretch.{IsStretch};

use pt_case::{Check, Record, Records, fresh};
use pt_choice::NoMemory;
use std::alloc::Global;
use std::thread;
use std::thread::Threads;

/// The records of the runs `from` up to but without `to`, in order, whatever the number of workers.
///
/// Runs are numbered from 0, and those of one seed are the same in every call. A worker makes a stretch of them, and none
/// is started for an empty one. A single worker makes them one after another, with no list but that of the records.
///
/// # Errors
///
/// `NoMemory` where memory ran out, and for no other reason.
pub fn batch<R: Threads + Sync, C: Check>(
    rt: &R,
    alloc: Global,
    check: &C,
    seed: u64,
    from: u64,
    to: u64,
    workers: u32,
) -> Result<Records, NoMemory>
    requires in_order { from ≤ to }
    requires few { to ≤ from + 1024 }
    requires workers { (1 ≤ workers) × (workers ≤ 16) }
    ensures { IfOk result (λ records. AreRuns (C.step check.now) seed from to records) }
{
    if workers == 1 {
        return made_from(alloc, check, seed, from, to);
    }
    let size = share_size(to - from, u64::from(workers));
    let count = share_count(to - from, size, u64::from(workers));
    let made = |worker: usize| -> Result<Records, NoMemory>
        requires { (from ≤ to) × (to ≤ from + 1024) × (size ≤ 1024) × (worker < 16) }
        ensures { IfOk result (λ made. IsStretch (C.step check.entry.now) seed from to size worker made) }
    { share(alloc, check, seed, from, to, size, worker) };
    let shares = thread::map_indices(rt, alloc, count as usize, &made)?;
    gathered(alloc, check, seed, from, to, size, shares)
}

// How many runs a worker's share has, but for the last one, which may have fewer.
fn share_size(runs: u64, workers: u64) -> u64
    requires some { 1 ≤ workers }
    requires few { runs ≤ 1024 }
    ensures within { (1 ≤ result) × (result ≤ 1024) }
    ensures enough { runs ≤ workers * result }
{
    runs.div_ceil(workers).max(1)
}

// How many shares of this size the runs fill, the last one maybe not to its end.
fn share_count(runs: u64, size: u64, workers: u64) -> u64
    requires some { 1 ≤ size }
    requires enough { runs ≤ workers * size }
    ensures few { result ≤ workers }
    ensures enough { runs ≤ result * size }
    ensures none_empty { result * size < runs + size }
{
    runs.div_ceil(size)
}

// Where a worker's share of the runs begins.
fn start(from: u64, to: u64, size: u64, worker: usize) -> u64
    requires { (from ≤ to) × (to ≤ from + 1024) × (size ≤ 1024) × (worker ≤ 16) }
    ensures { result ≡ min to (from + worker * size) }
{
    let before = worker as u64 * size;
    if before < to - from {
        from + before
    } else {
        to
    }
}

// The runs of one worker's share.
fn share<C: Check>(
    alloc: Global,
    check: &C,
    seed: u64,
    from: u64,
    to: u64,
    size: u64,
    worker: usize,
) -> Result<Records, NoMemory>
    requires { (from ≤ to) × (to ≤ from + 1024) × (size ≤ 1024) × (worker < 16) }
    ensures { IfOk result (λ made. IsStretch (C.step check.now) seed from to size worker made) }
{
    let first = start(from, to, size, worker);
    let end = start(from, to, size, worker + 1);
    made_from(alloc, check, seed, first, end)
}

// The records of the runs from the one number up to but without the other.
fn made_from<C: Check>(
    alloc: Global,
    check: &C,
    seed: u64,
    from: u64,
    to: u64,
) -> Result<Records, NoMemory>
    requires { from ≤ to }
    ensures { IfOk result (λ made. AreRuns (C.step check.now) seed from to made) }
{
    let alone = to - from == 1;
    let mut made = Records::empty(alloc);
    for run in from..to {
        made.push(make(alloc, check, seed, run, alone)?)?;
    }
    Ok(made)
}

// The record of a run. One that is kept beside others holds no more memory than its members need: a run makes room for the most
// choices and spans.
fn make<C: Check>(
    alloc: Global,
    check: &C,
    seed: u64,
    run: u64,
    alone: bool,
) -> Result<Record, NoMemory>
    ensures { IfOk result (λ rec. IsRun (C.step check.now) (supply_of_run seed run) rec) }
{
    let rec = fresh(alloc, check, seed, run)?;
    if alone {
        return Ok(rec);
    }
    fitted(rec)
}

// The record, in as much memory as its choices and spans need.
fn fitted(rec: Record) -> Result<Record, NoMemory>
    ensures { IfOk result (λ fitted. fitted ≡ rec) }
{
    let choices = rec.choices.copy()?;
    let spans = rec.spans.copy()?;
    Ok(Record {
        choices,
        spans,
        notes: rec.notes,
        ending: rec.ending,
    })
}

// The shares one after another.
fn gathered<C: Check>(
    alloc: Global,
    check: &C,
    seed: u64,
    from: u64,
    to: u64,
    size: u64,
    shares: Vec<Result<Records, NoMemory>>,
) -> Result<Records, NoMemory>
    requires in_order { from ≤ to }
    requires all { to ≤ from + vec_len shares * size }
    requires each { (i : ℕ) (d : _) → i < vec_len shares → IfOk (slice_index_or shares.items i d) (λ made.
        IsStretch (C.step check.now) seed from to size i made) }
    ensures { IfOk result (λ records. AreRuns (C.step check.now) seed from to records) }
{
    let mut records = Records::empty(alloc);
    for made in shares {
        append(&mut records, made?)?;
    }
    Ok(records)
}

// The records so far, and after them those of a share.
fn append(records: &mut Records, made: Records) -> Result<(), NoMemory>
    ensures { OnOk result (records.new ≡ records.old ++ made) }
{
    for rec in made {
        records.push(rec)?;
    }
    Ok(())
}
