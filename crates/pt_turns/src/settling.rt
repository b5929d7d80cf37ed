ghost use Rattle.std.specs.Prelude.{◌≤◌, map, IfOk, OnErr};
ghost use Rattle.pt_ast.specs.Plain.{plain_item};
ghost use Rattle.pt_turns.specs.Ready.{AreReady};
ghost use Rattle.pt_turns.specs.Scene.{scene};
ghost use Rattle.pt_turns.specs.Finishes.{StoppedShort};
ghost use Rattle.pt_turns.specs.Settling.{EndedSettled};

use crate::turns::{Turned, turn_items};
use pt_ast::Item;
use pt_case::Check;
use pt_choice::NoMemory;
use pt_db::Store;
use pt_disk::Disk;
use pt_found::Findings;
use pt_io::Sink;
use std::alloc::Global;
use std::thread::Threads;

// Settles the folder, and gives each item its turn in order. Where the folder could not be settled, the disk failed before the first turn.
pub(crate) fn settle_and_turn<R: Threads + Sync, C: Check, D: Disk, K: Sink>(
    rt: &R,
    alloc: Global,
    items: &[Item],
    checks: &[C],
    seed: u64,
    workers: u32,
    disk: &mut D,
    sink: &mut K,
) -> Result<Turned, NoMemory>
    requires ready { AreReady (map C.name checks.now) (map plain_item items.now) }
    requires workers { (1 ≤ workers) × (workers ≤ 16) }
    ensures ended { IfOk result (λ turned. EndedSettled C.name C.step checks.now seed (map plain_item items.now) turned
        (scene (D.faults disk.old) (D.tells disk.old) (K.shows sink.old)) (scene (D.faults disk.new) (D.tells disk.new) (K.shows sink.new))) }
    ensures memory { OnErr result (StoppedShort C.name C.step checks.now seed (map plain_item items.now)
        (scene (D.faults disk.old) (D.tells disk.old) (K.shows sink.old)) (scene (D.faults disk.new) (D.tells disk.new) (K.shows sink.new))) }
    ensures later { (K.shows sink.old).faults ≤ (K.shows sink.new).faults }
    ensures later_disk { D.faults disk.old ≤ D.faults disk.new }
{
    match Store::attach(alloc, disk) {
        Ok(mut store) => {
            let turned = turn_items(rt, alloc, items, checks, seed, workers, &mut store, sink);
            store.close();
            turned
        }
        Err(_lost) => Ok(Turned::Failed(Findings::empty(alloc))),
    }
}
