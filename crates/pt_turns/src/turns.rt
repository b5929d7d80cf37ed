ghost use Rattle.std.specs.Prelude.{◌≡◌, ◌≤◌, false, map, IfOk, OnErr};
ghost use Rattle.pt_ast.specs.Plain.{plain_item};
ghost use Rattle.pt_turns.specs.Ready.{AreReady};
ghost use Rattle.pt_turns.specs.Scene.{scene};
ghost use Rattle.pt_turns.specs.Turns.{AreExamined};
ghost use Rattle.pt_turns.specs.Ended.{Ended, EndedShort};

use crate::examining::examine_item;
use crate::one_turn::take_turn;
use pt_ast::Item;
use pt_case::{Check, ChoiceLists};
use pt_choice::NoMemory;
use pt_db::Store;
use pt_disk::Disk;
use pt_edits::{StoreStop, TwoValues};
use pt_found::Findings;
use pt_io::{Sink, write_all};
use std::alloc::Global;
use std::thread::Threads;

/// How the turns of some items ended, with the findings of the items that had theirs.
#[derive(Drop)]
pub(crate) enum Turned {
    /// Each item had its turn.
    All(Findings),
    /// The output failed in the block of the last of these findings.
    Cut(Findings),
    /// The disk failed in the turn of the next item.
    Failed(Findings),
    /// Two values of one digest were met in the turn of the next item.
    Clashed(Findings, TwoValues),
}

/// Gives each item its turn, in order: what is stored under its name is read, the item is examined with its own settings, the edits are
/// made, and its block is written. Between two items no memory is in use but that of the findings.
///
/// # Errors
///
/// `NoMemory` where memory ran out, and for no other reason. The blocks that are written by then are whole.
pub(crate) fn turn_items<R: Threads + Sync, C: Check, D: Disk, K: Sink>(
    rt: &R,
    alloc: Global,
    items: &[Item],
    checks: &[C],
    seed: u64,
    workers: u32,
    store: &mut Store<'_, D>,
    sink: &mut K,
) -> Result<Turned, NoMemory>
    requires ready { AreReady (map C.name checks.now) (map plain_item items.now) }
    requires workers { (1 ≤ workers) × (workers ≤ 16) }
    requires alive { store.old.dead ≡ false }
    ensures same_reference { store.new.disk.ghost_name ≡ store.old.disk.ghost_name }
    ensures ended { IfOk result (λ turned. Ended C.name C.step checks.now seed (map plain_item items.now) turned
        (scene (D.faults store.old.disk.now) (D.tells store.old.disk.now) (K.shows sink.old))
        (scene (D.faults store.new.disk.now) (D.tells store.new.disk.now) (K.shows sink.new))) }
    ensures memory { OnErr result (EndedShort C.name C.step checks.now seed (map plain_item items.now)
        (scene (D.faults store.old.disk.now) (D.tells store.old.disk.now) (K.shows sink.old))
        (scene (D.faults store.new.disk.now) (D.tells store.new.disk.now) (K.shows sink.new))) }
    ensures later { (K.shows sink.old).faults ≤ (K.shows sink.new).faults }
    ensures later_disk { D.faults store.old.disk.now ≤ D.faults store.new.disk.now }
{
    let mut findings = Findings::empty(alloc);
    for item in items {
        let turning = match take_turn(rt, alloc, item, checks, seed, workers, store) {
            Ok(turning) => turning,
            Err(StoreStop::Failed) => return Ok(Turned::Failed(findings)),
            Err(StoreStop::Clash(two)) => return Ok(Turned::Clashed(findings, two)),
            Err(StoreStop::NoMemory) => return Err(NoMemory),
        };
        findings.push(turning.finding)?;
        let Ok(()) = write_all(sink, turning.block.as_slice()) else {
            return Ok(Turned::Cut(findings));
        };
    }
    Ok(Turned::All(findings))
}

/// Examines items in order, each with its own settings, with nothing stored, and writes nothing.
///
/// # Errors
///
/// `NoMemory` where memory ran out, and for no other reason.
pub fn examine_all<R: Threads + Sync, C: Check>(
    rt: &R,
    alloc: Global,
    items: &[Item],
    checks: &[C],
    seed: u64,
    workers: u32,
) -> Result<Findings, NoMemory>
    requires ready { AreReady (map C.name checks.now) (map plain_item items.now) }
    requires workers { (1 ≤ workers) × (workers ≤ 16) }
    ensures { IfOk result (λ findings. AreExamined C.name C.step checks.now seed (map plain_item items.now) findings) }
{
    let stored = ChoiceLists::empty(alloc);
    let mut findings = Findings::empty(alloc);
    for item in items {
        findings.push(examine_item(rt, alloc, item, checks, seed, &stored, workers)?)?;
    }
    Ok(findings)
}
