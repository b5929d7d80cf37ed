ghost use Rattle.std.specs.Prelude.{◌≡◌, ◌≤◌, false, true, [], List, map, IfOk, IfErr, OnOk, IsErrOf};
ghost use Rattle.pt_ast.specs.Plain.{plain_item};
ghost use Rattle.pt_disk.specs.Calls.{HasCause};
ghost use Rattle.pt_disk.specs.Moments.{BothTell};
ghost use Rattle.pt_edits.specs.Made.{Made};
ghost use Rattle.pt_edits.specs.Pairs.{PairEdit};
ghost use Rattle.pt_report.specs.Report.{IsBlock};
ghost use Rattle.pt_turns.specs.Ready.{IsReady};
ghost use Rattle.pt_turns.specs.Ended.{StopsIn};
ghost use Rattle.pt_turns.specs.Turn.{Turn};

use crate::examining::examine_item;
use pt_ast::Item;
use pt_case::Check;
use pt_choice::Octets;
use pt_db::Store;
use pt_disk::Disk;
use pt_edits::{StoreStop, edits_of, lists_of, make_edits, read_stored};
use pt_found::Finding;
use pt_report::block;
use std::alloc::Global;
use std::thread::Threads;

// What an item's turn came to: its finding, and the block that says so.
#[derive(Drop)]
pub(crate) struct Turning {
    pub finding: Finding,
    pub block: Octets,
}

// One item's turn: what is stored under its name is read, the item is examined, and the edits are made. All memory but that of the
// edits' files is taken before the first edit.
pub(crate) fn take_turn<R: Threads + Sync, C: Check, D: Disk>(
    rt: &R,
    alloc: Global,
    item: &Item,
    checks: &[C],
    seed: u64,
    workers: u32,
    store: &mut Store<'_, D>,
) -> Result<Turning, StoreStop>
    requires ready { IsReady (map C.name checks.now) (plain_item item.now) }
    requires workers { (1 ≤ workers) × (workers ≤ 16) }
    requires alive { store.old.dead ≡ false }
    ensures same_reference { store.new.disk.ghost_name ≡ store.old.disk.ghost_name }
    ensures turn { IfOk result (λ turning. (edits : List PairEdit)
        × Turn C.name C.step checks.now seed (D.tells store.old.disk.now) [] (plain_item item.now) turning.finding edits
        × BothTell (Made edits true) (D.tells store.old.disk.now) (D.tells store.new.disk.now)) }
    ensures block { IfOk result (λ turning. IsBlock turning.finding turning.block) }
    ensures stopped { IfErr result (StopsIn C.name C.step checks.now seed (plain_item item.now)
        (D.tells store.old.disk.now) (D.tells store.new.disk.now)) }
    ensures cause { HasCause (IsErrOf result StoreStop.Failed) (D.faults store.old.disk.now) (D.faults store.new.disk.now) }
    ensures alive { OnOk result (store.new.dead ≡ false) }
{
    let key = item.name.name.as_slice();
    let readings = read_stored(alloc, store, key)?;
    let stored = lists_of(alloc, &readings)?;
    let finding = examine_item(rt, alloc, item, checks, seed, &stored, workers)?;
    let block = block(alloc, &finding)?;
    let edits = edits_of(alloc, readings, &finding.verdict, &finding.failing)?;
    make_edits(store, key, &edits)?;
    Ok(Turning { finding, block })
}
