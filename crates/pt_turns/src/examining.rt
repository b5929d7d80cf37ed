ghost use Rattle.std.specs.Prelude.{◌≤◌, map, IfOk};
ghost use Rattle.pt_ast.specs.Plain.{plain_item};
ghost use Rattle.pt_turns.specs.Ready.{IsReady};
ghost use Rattle.pt_turns.specs.Examined.{Examined};

use pt_ast::Item;
use pt_case::{Check, ChoiceLists};
use pt_choice::NoMemory;
use pt_engine::examine;
use pt_found::Finding;
use pt_item::{ItemCheck, an_item_notes_what_it_draws};
use std::alloc::Global;
use std::thread::Threads;

// Examines one item over these stored lists. Of the memory that it took only that of the finding is kept.
pub(crate) fn examine_item<R: Threads + Sync, C: Check>(
    rt: &R,
    alloc: Global,
    item: &Item,
    checks: &[C],
    seed: u64,
    stored: &ChoiceLists,
    workers: u32,
) -> Result<Finding, NoMemory>
    requires ready { IsReady (map C.name checks.now) (plain_item item.now) }
    requires workers { (1 ≤ workers) × (workers ≤ 16) }
    ensures { IfOk result (λ finding. Examined C.name C.step checks.now seed stored.now (plain_item item.now) finding) }
{
    an_item_notes_what_it_draws(checks);
    let check = ItemCheck::of(item, checks);
    let settings = item.settings;
    examine(
        rt,
        alloc,
        &check,
        seed,
        stored,
        settings.runs,
        settings.shrink,
        workers,
    )
}
