ghost use Rattle.std.specs.Prelude.{◌≡◌, ◌≢◌, ◌≤◌, map, IfOk, OnErr, None};
ghost use Rattle.pt_ast.specs.Plain.{plain_item};
ghost use Rattle.pt_report.specs.declared.refusal.Word.{Word};
ghost use Rattle.pt_report.specs.Refusals.{refusal_text};
ghost use Rattle.pt_report.specs.Report.{tail};
ghost use Rattle.pt_val.specs.declared.place.Place.{Place};
ghost use Rattle.pt_turns.specs.Added.{IsAdded};
ghost use Rattle.pt_turns.specs.Ready.{AreReady};
ghost use Rattle.pt_turns.specs.Scene.{scene};
ghost use Rattle.pt_turns.specs.Finishes.{Finishes, StoppedShort, all_passed, status_of};

use crate::settling::settle_and_turn;
use crate::turns::Turned;
use pt_ast::Item;
use pt_case::Check;
use pt_choice::NoMemory;
use pt_disk::Disk;
use pt_edits::TwoValues;
use pt_found::{Finding, Findings};
use pt_io::{Sink, write_all};
use pt_report::{Refusal, fixed_text, has_passed, tail};
use std::alloc::Global;
use std::thread::Threads;

// The statuses where the output failed, the disk, and where two values clash.
const FAILED_WRITE: u8 = 5;

const FAILED_DISK: u8 = 6;

const CLASH: u8 = 8;

/// What a run over some items came to.
#[derive(Drop)]
pub struct Reported {
    /// 0 where each item had its turn and passed, 1 where one of them did not pass, 5 where the output failed, 6 where the disk
    /// failed, and 8 where two values clash.
    pub status: u8,
    /// Those of the items that had their turns, in order.
    pub findings: Findings,
    /// With status 8 the two values.
    pub clash: Option<TwoValues>,
}

/// Settles the folder, gives each item its turn in order, and writes the tail; or, where the disk fails or two values clash, the line on
/// that.
///
/// # Errors
///
/// `NoMemory` where memory ran out, and for no other reason. The blocks that are written by then are whole.
pub fn report<R: Threads + Sync, C: Check, D: Disk, K: Sink>(
    rt: &R,
    alloc: Global,
    items: &[Item],
    checks: &[C],
    seed: u64,
    workers: u32,
    disk: &mut D,
    sink: &mut K,
) -> Result<Reported, NoMemory>
    requires ready { AreReady (map C.name checks.now) (map plain_item items.now) }
    requires workers { (1 ≤ workers) × (workers ≤ 16) }
    ensures finishes { IfOk result (λ reported. Finishes C.name C.step checks.now seed (map plain_item items.now) reported
        (scene (D.faults disk.old) (D.tells disk.old) (K.shows sink.old)) (scene (D.faults disk.new) (D.tells disk.new) (K.shows sink.new))) }
    ensures memory { OnErr result (StoppedShort C.name C.step checks.now seed (map plain_item items.now)
        (scene (D.faults disk.old) (D.tells disk.old) (K.shows sink.old)) (scene (D.faults disk.new) (D.tells disk.new) (K.shows sink.new))) }
    ensures later { (K.shows sink.old).faults ≤ (K.shows sink.new).faults }
    ensures later_disk { D.faults disk.old ≤ D.faults disk.new }
{
    match settle_and_turn(rt, alloc, items, checks, seed, workers, disk, sink)? {
        Turned::All(findings) => add_tail(alloc, findings, sink),
        Turned::Cut(findings) => Ok(Reported {
            status: FAILED_WRITE,
            findings,
            clash: None,
        }),
        Turned::Failed(findings) => Ok(add_line(
            findings,
            &Refusal::Database,
            FAILED_DISK,
            None,
            sink,
        )),
        Turned::Clashed(findings, two) => Ok(add_line(
            findings,
            &Refusal::Clash,
            CLASH,
            Some(two),
            sink,
        )),
    }
}

// Writes the tail of the findings, and ends with their status.
fn add_tail<K: Sink>(alloc: Global, findings: Findings, sink: &mut K) -> Result<Reported, NoMemory>
    ensures added { IfOk result (λ reported. IsAdded findings (tail findings) (status_of findings) None reported (K.shows sink.old) (K.shows sink.new)) }
    ensures nothing { OnErr result (sink.new ≡ sink.old) }
    ensures later { (K.shows sink.old).faults ≤ (K.shows sink.new).faults }
{
    let text = tail(alloc, findings.as_slice())?;
    let status = status_of(findings.as_slice());
    Ok(add(findings, text.as_slice(), status, None, sink))
}

// Writes the line of this refusal, and ends with this status.
fn add_line<K: Sink>(
    findings: Findings,
    refusal: &Refusal,
    status: u8,
    clash: Option<TwoValues>,
    sink: &mut K,
) -> Reported
    requires { (place : Place) (word : Word) → refusal.now ≢ Refusal.Suite place word }
    ensures added { IsAdded findings (refusal_text refusal.now) status clash result (K.shows sink.old) (K.shows sink.new) }
    ensures later { (K.shows sink.old).faults ≤ (K.shows sink.new).faults }
{
    add(findings, fixed_text(refusal), status, clash, sink)
}

// Writes this text, and ends with this status.
fn add<K: Sink>(
    findings: Findings,
    text: &[u8],
    status: u8,
    clash: Option<TwoValues>,
    sink: &mut K,
) -> Reported
    ensures added { IsAdded findings text.now status clash result (K.shows sink.old) (K.shows sink.new) }
    ensures later { (K.shows sink.old).faults ≤ (K.shows sink.new).faults }
{
    match write_all(sink, text) {
        Ok(()) => Reported {
            status,
            findings,
            clash,
        },
        Err(_) => Reported {
            status: FAILED_WRITE,
            findings,
            clash: None,
        },
    }
}

/// The status of a run with these findings, where nothing failed.
pub fn status_of(findings: &[Finding]) -> u8
    ensures { result ≡ status_of findings.now }
{
    if all_passed(findings) { 0 } else { 1 }
}

fn all_passed(findings: &[Finding]) -> bool
    ensures { result ≡ all_passed findings.now }
{
    findings.iter().all(|finding| has_passed(&finding.verdict))
}
