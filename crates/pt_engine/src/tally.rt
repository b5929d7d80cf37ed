ghost use Rattle.std.specs.Prelude.{◌≡◌, ◌≤◌, ◌+◌, ◌*◌, List, length, IfOk, if◌then◌else◌};
ghost use Rattle.pt_case.specs.Ending.{is_pass};
ghost use Rattle.pt_case.specs.declared.record.Record.{Record};
ghost use Rattle.pt_engine.specs.Outcome.{AreOpen};
ghost use Rattle.pt_engine.specs.Progress.{IsCount, Counts};

use crate::outcome::Decision;
use pt_case::Record;
use pt_choice::NoMemory;
use pt_found::Found;

/// How many runs were made, and how many of them passed.
#[derive(Clone, Copy, Debug)]
pub(crate) struct Tally {
    pub(crate) seen: u32,
    pub(crate) valid: u32,
}

// How much a run adds to the passing ones.
fn passes(rec: &Record) -> u32
    ensures { result ≡ (if is_pass rec.now.ending then 1 else 0) }
{
    if rec.ending.is_pass() { 1 } else { 0 }
}

/// Counts further runs one after another, up to the one that decides.
pub(crate) fn count(
    block: &[Record],
    runs: u32,
    tally: &mut Tally,
) -> Result<Option<Decision>, NoMemory>
    requires most { runs ≤ 10000 }
    requires fewer { tally.old.valid ≤ tally.old.seen }
    requires room { tally.old.seen + length block.now ≤ 10 * runs }
    ensures fewer { IfOk result (λ decision. tally.new.valid ≤ tally.new.seen) }
    ensures counts { (before : List Record) → AreOpen runs before → IsCount before tally.old →
        IfOk result (λ decision. Counts runs before block.now decision tally.new) }
{
    for rec in block {
        tally.seen += 1;
        tally.valid += passes(rec);
        if rec.ending.is_failure() {
            let found = Found::Run(tally.seen - 1);
            return Ok(Some(Decision::Failed {
                first: rec.copy()?,
                found,
            }));
        }
        if tally.valid == runs {
            return Ok(Some(Decision::Passed));
        }
    }
    Ok(None)
}
