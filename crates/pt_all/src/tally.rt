//! Counting runs.

ghost use Rattle.std.specs.Prelude.{◌≡◌, ◌≤◌, ◌<◌, ◌+◌, ◌++◌, ◌∷◌, [], List, length, OnOk, if◌then◌else◌};
ghost use Rattle.pt_case.specs.Ending.{is_pass};
ghost use Rattle.pt_case.specs.declared.record.Record.{Record};
ghost use Rattle.pt_all.specs.Window.{is_settled};
ghost use Rattle.pt_all.specs.Progress.{IsCount};

use crate::firsts::{First, take_in};
use pt_case::Record;
use pt_choice::NoMemory;

/// What the runs so far came to.
#[derive(Drop)]
pub(crate) struct Tally {
    /// How many were made.
    pub(crate) seen: u32,
    /// How many passed.
    pub(crate) valid: u32,
    /// How many passed or failed.
    pub(crate) settled: u32,
    pub(crate) firsts: Vec<First>,
}

/// Counts further runs.
pub(crate) fn count(block: &[Record], tally: &mut Tally) -> Result<(), NoMemory>
    requires counted { (before : List Record) × IsCount before tally.old }
    requires room { tally.old.seen + length block.now ≤ 100000 }
    ensures { (before : List Record) → IsCount before tally.old → OnOk result (IsCount (before ++ block.now) tally.new) }
{
    for rec in block {
        count_one(rec, tally)?;
    }
    Ok(())
}

// Counts one run more.
fn count_one(rec: &Record, tally: &mut Tally) -> Result<(), NoMemory>
    requires counted { (before : List Record) × IsCount before tally.old }
    requires room { tally.old.seen < 100000 }
    ensures { (before : List Record) → IsCount before tally.old → OnOk result (IsCount (before ++ rec.now ∷ []) tally.new) }
{
    take_in(&mut tally.firsts, tally.seen, rec)?;
    tally.seen += 1;
    tally.valid += passing(rec);
    tally.settled += settling(rec);
    Ok(())
}

// How much a run adds to the passing ones.
fn passing(rec: &Record) -> u32
    ensures { result ≡ (if is_pass rec.now.ending then 1 else 0) }
{
    if rec.ending.is_pass() { 1 } else { 0 }
}

// How much a run adds to those that passed or failed.
fn settling(rec: &Record) -> u32
    ensures { result ≡ (if is_settled rec.now then 1 else 0) }
{
    if rec.ending.is_pass() || rec.ending.is_failure() {
        1
    } else {
        0
    }
}
