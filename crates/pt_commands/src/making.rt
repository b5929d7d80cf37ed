ghost use Rattle.std.specs.Prelude.{◌≡◌, ◌≤◌, ◌⊎◌, None, IfOk, OnErr};
ghost use Rattle.pt_choice.specs.Faults.{Rose};
ghost use Rattle.pt_io.specs.Sink.{Appends, AppendsPart};
ghost use Rattle.pt_report.specs.Report.{summary};
ghost use Rattle.pt_turns.specs.Finishes.{status_of};
ghost use Rattle.pt_commands.specs.Ends.{Sums};

use crate::Finish;
use crate::telling::FAILED_WRITE;
use pt_case::Check;
use pt_choice::NoMemory;
use pt_found::Findings;
use pt_io::{Sink, write_all};
use pt_made::made_suite;
use pt_report::summary;
use pt_turns::{examine_all, sound_items_are_ready, status_of};
use std::alloc::Global;
use std::thread::Threads;

// How many workers examine a suite that is made.
const WORKERS: u32 = 4;

/// Examines the items of the suite that is made, with nothing stored, and sums up what is found.
pub fn make<R: Threads + Sync, K: Sink, C: Check>(
    rt: &R,
    alloc: Global,
    seed: u64,
    count: u32,
    sink: &mut K,
    checks: &[C],
) -> Result<Finish, NoMemory>
    requires { count ≤ 200 }
    ensures sums { IfOk result (λ finish. Sums C.name C.step checks.now seed count finish (K.shows sink.old) (K.shows sink.new)) }
    ensures nothing { OnErr result (sink.new ≡ sink.old) }
    ensures later { (K.shows sink.old).faults ≤ (K.shows sink.new).faults }
{
    sound_items_are_ready();
    let suite = made_suite(alloc, seed, count)?;
    let findings = examine_all(rt, alloc, suite.items(), checks, seed, WORKERS)?;
    let text = summary(alloc, findings.as_slice())?;
    Ok(sum_up(findings, text.as_slice(), sink))
}

// Writes the summary of the findings, and ends with their status.
fn sum_up<K: Sink>(findings: Findings, text: &[u8], sink: &mut K) -> Finish
    requires { text.now ≡ summary findings }
    ensures same { result.findings ≡ findings }
    ensures replayed { result.replayed ≡ None }
    ensures clash { result.clash ≡ None }
    ensures told { ((result.status ≡ status_of result.findings) × Appends (K.shows sink.old).bytes (summary result.findings) (K.shows sink.new).bytes
        × ((K.shows sink.new).faults ≡ (K.shows sink.old).faults))
        ⊎ ((result.status ≡ 5) × AppendsPart (K.shows sink.old).bytes (summary result.findings) (K.shows sink.new).bytes
        × Rose (K.shows sink.old).faults (K.shows sink.new).faults) }
    ensures later { (K.shows sink.old).faults ≤ (K.shows sink.new).faults }
{
    let status = match write_all(sink, text) {
        Ok(()) => status_of(findings.as_slice()),
        Err(_) => FAILED_WRITE,
    };
    Finish {
        status,
        findings,
        replayed: None,
        clash: None,
    }
}
