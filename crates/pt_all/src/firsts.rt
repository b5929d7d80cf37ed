//! The first failures of the origins that were met so far.

ghost use Rattle.std.specs.Prelude.{◌≡◌, ◌↔◌, ◌<◌, IsTrue, OnOk, if◌then◌else◌};
ghost use Rattle.std.specs.List.{All};
ghost use Rattle.pt_case.specs.Ending.{is_failure};
ghost use Rattle.pt_all.specs.Origins.{same_ending};
ghost use Rattle.pt_all.specs.Progress.{with_failure};

use pt_case::Record;
use pt_choice::NoMemory;

/// The first failure of an origin, and how often the origin came.
#[derive(Drop)]
pub(crate) struct First {
    pub(crate) run: u32,
    pub(crate) times: u32,
    pub(crate) rec: Record,
}

/// Takes in the record of a run, if it fails.
pub(crate) fn take_in(firsts: &mut Vec<First>, run: u32, rec: &Record) -> Result<(), NoMemory>
    requires few { All (λ first. first.times < 100000) firsts.old.items }
    ensures { OnOk result (firsts.new.items ≡ (if is_failure rec.now.ending then with_failure run rec.now firsts.old.items else firsts.old.items)) }
{
    if !rec.ending.is_failure() {
        return Ok(());
    }
    add(firsts, run, rec)
}

// Counts a failure at its origin. The record is copied only where it is the first one.
fn add(firsts: &mut Vec<First>, run: u32, rec: &Record) -> Result<(), NoMemory>
    requires few { All (λ first. first.times < 100000) firsts.old.items }
    ensures { OnOk result (firsts.new.items ≡ with_failure run rec.now firsts.old.items) }
{
    for place in 0..firsts.len() {
        if is_alike(&firsts[place].rec, rec) {
            firsts[place].times += 1;
            return Ok(());
        }
    }
    let rec = rec.copy()?;
    firsts.push(First { run, times: 1, rec })?;
    Ok(())
}

// Whether the two failed at one origin.
fn is_alike(one: &Record, other: &Record) -> bool
    ensures { result ≡ same_ending one.now.ending other.now.ending }
{
    one.ending == other.ending
}
