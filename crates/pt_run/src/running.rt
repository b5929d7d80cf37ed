ghost use Rattle.std.specs.Prelude.{◌≡◌, ◌≤◌, ◌⊎◌, map, IfOk, OnErr};
ghost use Rattle.pt_choice.specs.Faults.{next_count};
ghost use Rattle.pt_ast.specs.Plain.{plain_suite};
ghost use Rattle.pt_ast.specs.Trees.{SuiteTree};
ghost use Rattle.pt_io.specs.Files.{IsSame};
ghost use Rattle.pt_turns.specs.Finishes.{StoppedShort};
ghost use Rattle.pt_turns.specs.Scene.{scene};
ghost use Rattle.pt_run.specs.Ends.{Ends};
ghost use Rattle.pt_run.specs.Outside.{outside};
ghost use Rattle.pt_run.specs.Suite.{IsTaken};
ghost use Rattle.pt_commands.specs.Words.{Run};

use crate::loading::{Loaded, load};
use pt_case::Check;
use pt_choice::NoMemory;
use pt_commands::{Finish, Message, tell};
use pt_disk::Disk;
use pt_io::{Files, Sink};
use pt_turns::{report, sound_items_are_ready};
use std::alloc::Global;
use std::thread::Threads;

/// Examines each item of the suite in the order of its text, over what the database holds, and reports what is found.
pub fn run<R: Threads + Sync, F: Files, D: Disk, K: Sink, C: Check>(
    rt: &R,
    alloc: Global,
    file: &str,
    seed: u64,
    workers: u32,
    files: &mut F,
    disk: &mut D,
    sink: &mut K,
    checks: &[C],
) -> Result<Finish, NoMemory>
    requires workers { (1 ≤ workers) × (workers ≤ 16) }
    ensures ends { IfOk result (λ finish. Ends C.name C.step checks.now (Run file.now seed workers)
        (outside (F.shows files.old) (D.faults disk.old) (D.tells disk.old) (K.shows sink.old))
        (outside (F.shows files.new) (D.faults disk.new) (D.tells disk.new) (K.shows sink.new)) finish) }
    ensures short { OnErr result (((sink.new ≡ sink.old) × (disk.new ≡ disk.old)) ⊎ ((suite : SuiteTree)
        × IsTaken (map C.name checks.now) (F.shows files.old) (F.shows files.new) file.now suite
        × StoppedShort C.name C.step checks.now seed suite.items
        (scene (D.faults disk.old) (D.tells disk.old) (K.shows sink.old)) (scene (D.faults disk.new) (D.tells disk.new) (K.shows sink.new)))) }
    ensures quiet { OnErr result ((F.shows files.new).faults ≡ (F.shows files.old).faults) }
    ensures same { IsSame (F.shows files.old) (F.shows files.new) }
    ensures later { (K.shows sink.old).faults ≤ (K.shows sink.new).faults }
    ensures later_disk { D.faults disk.old ≤ D.faults disk.new }
    ensures once { (F.shows files.new).chosen ≡ next_count (F.shows files.old).chosen }
{
    sound_items_are_ready();
    match load(alloc, files, file, checks)? {
        Loaded::Taken(suite) => {
            let items = suite.items();
            let reported = report(rt, alloc, items, checks, seed, workers, disk, sink)?;
            Ok(Finish {
                status: reported.status,
                findings: reported.findings,
                replayed: None,
                clash: reported.clash,
            })
        }
        Loaded::Refused(refusal) => tell(alloc, sink, Message::Refused(refusal)),
    }
}
