ghost use Rattle.std.specs.Prelude.{◌≡◌, ◌≤◌, ◌⊎◌, ◌↔◌, true, IfOk, OnOk, OnErr, IsSome};
ghost use Rattle.pt_choice.specs.Faults.{next_count};
ghost use Rattle.pt_db.specs.Attaching.{Attached};
ghost use Rattle.pt_disk.specs.Moments.{BothTell};
ghost use Rattle.pt_io.specs.Files.{IsSame};
ghost use Rattle.pt_run.specs.Call.{Answers, call};
ghost use Rattle.pt_commands.specs.Command.{asked_by};
ghost use Rattle.pt_run.specs.Ends.{Ends, EndsShort};
ghost use Rattle.pt_commands.specs.Message.{IsStatus};
ghost use Rattle.pt_run.specs.Outside.{outside};
ghost use Rattle.pt_run.specs.Suite.{HaveOwnNames};
ghost use Rattle.pt_commands.specs.Words.{Asks, AsksStored, AskNoDisk, AskNoFile};

use crate::explaining::explain_on;
use crate::running::run;
use crate::showing::show;
use pt_case::Check;
use pt_choice::NoMemory;
use pt_commands::{Command, Finish, Message, list, make, read_command, tell};
use pt_disk::Disk;
use pt_io::{Files, Sink};
use pt_report::Refusal;
use std::alloc::Global;
use std::thread::Threads;

/// All that the program does: reads the words, does what they ask for, and says what came of it.
///
/// Between two items of a run the memory in use is that of the findings. Want of memory may come at any time, and what was
/// written by then are whole blocks of a run.
pub fn top<R: Threads + Sync, F: Files, D: Disk, K: Sink, C: Check>(
    rt: &R,
    alloc: Global,
    words: &[String],
    files: &mut F,
    disk: &mut D,
    sink: &mut K,
    checks: &[C],
) -> Result<Finish, NoMemory>
    requires { HaveOwnNames C.name checks.now }

    // What is due is written whole, with its status, or a first part of it, with status 5.
    ensures answers { IfOk result (λ finish. Answers C.name C.step checks.now (call words.now
        (outside (F.shows files.old) (D.faults disk.old) (D.tells disk.old) (K.shows sink.old))
        (outside (F.shows files.new) (D.faults disk.new) (D.tells disk.new) (K.shows sink.new)) finish)) }

    ensures status { IfOk result (λ finish. IsStatus finish.status) }

    // Two values are shown with status 8, and with no other.
    ensures clash { IfOk result (λ finish. IsSome finish.clash ↔ (finish.status ≡ 8)) }

    // After want of memory no call of the outside has failed, and the sink and the disk are as they were; or the folder was
    // settled alone, where its entries were asked for; or the blocks of some of the first items of a run are written, whole.
    ensures short { OnErr result (((sink.new ≡ sink.old) × (disk.new ≡ disk.old))
        ⊎ ((AsksStored words.now × (sink.new ≡ sink.old) × BothTell (Attached true) (D.tells disk.old) (D.tells disk.new) × (D.faults disk.new ≡ D.faults disk.old))
        ⊎ EndsShort C.name C.step checks.now words.now
        (outside (F.shows files.old) (D.faults disk.old) (D.tells disk.old) (K.shows sink.old))
        (outside (F.shows files.new) (D.faults disk.new) (D.tells disk.new) (K.shows sink.new)))) }
    ensures quiet { OnErr result ((F.shows files.new).faults ≡ (F.shows files.old).faults) }

    // The files are the same ones, and no count falls.
    ensures same { IsSame (F.shows files.old) (F.shows files.new) }
    ensures later { (K.shows sink.old).faults ≤ (K.shows sink.new).faults }
    ensures later_disk { D.faults disk.old ≤ D.faults disk.new }

    // The files are called for a run, a replay and an explanation alone, and the disk for a run and a list of what it holds. Of the files one is
    // chosen, once; after want of memory perhaps none.
    ensures untouched { AskNoFile words.now → files.new ≡ files.old }
    ensures undisturbed { AskNoDisk words.now → disk.new ≡ disk.old }
    ensures once { OnOk result ((AskNoFile words.now → ⊥) → (F.shows files.new).chosen ≡ next_count (F.shows files.old).chosen) }
    ensures at_most { OnErr result (((F.shows files.new).chosen ≡ (F.shows files.old).chosen)
        ⊎ ((F.shows files.new).chosen ≡ next_count (F.shows files.old).chosen)) }
{
    match read_command(alloc, words)? {
        Some(command) => perform(rt, alloc, command, words, files, disk, sink, checks),
        None => tell(alloc, sink, Message::Refused(Refusal::Usage)),
    }
}

// Does what the command asks for, which these words ask for.
fn perform<R: Threads + Sync, F: Files, D: Disk, K: Sink, C: Check>(
    rt: &R,
    alloc: Global,
    command: Command<'_>,
    words: &[String],
    files: &mut F,
    disk: &mut D,
    sink: &mut K,
    checks: &[C],
) -> Result<Finish, NoMemory>
    requires { Asks words.now (asked_by command) }
    ensures ends { IfOk result (λ finish. Ends C.name C.step checks.now (asked_by command.entry)
        (outside (F.shows files.old) (D.faults disk.old) (D.tells disk.old) (K.shows sink.old))
        (outside (F.shows files.new) (D.faults disk.new) (D.tells disk.new) (K.shows sink.new)) finish) }
    ensures short { OnErr result (((sink.new ≡ sink.old) × (disk.new ≡ disk.old))
        ⊎ ((AsksStored words.now × (sink.new ≡ sink.old) × BothTell (Attached true) (D.tells disk.old) (D.tells disk.new) × (D.faults disk.new ≡ D.faults disk.old))
        ⊎ EndsShort C.name C.step checks.now words.now
        (outside (F.shows files.old) (D.faults disk.old) (D.tells disk.old) (K.shows sink.old))
        (outside (F.shows files.new) (D.faults disk.new) (D.tells disk.new) (K.shows sink.new)))) }
    ensures quiet { OnErr result ((F.shows files.new).faults ≡ (F.shows files.old).faults) }
    ensures same { IsSame (F.shows files.old) (F.shows files.new) }
    ensures later { (K.shows sink.old).faults ≤ (K.shows sink.new).faults }
    ensures later_disk { D.faults disk.old ≤ D.faults disk.new }
    ensures untouched { AskNoFile words.now → files.new ≡ files.old }
    ensures undisturbed { AskNoDisk words.now → disk.new ≡ disk.old }
    ensures once { (AskNoFile words.now → ⊥) → (F.shows files.new).chosen ≡ next_count (F.shows files.old).chosen }
    ensures at_most { ((F.shows files.new).chosen ≡ (F.shows files.old).chosen)
        ⊎ ((F.shows files.new).chosen ≡ next_count (F.shows files.old).chosen) }
{
    match command {
        Command::Run {
            suite,
            seed,
            workers,
        } => run(rt, alloc, suite, seed, workers, files, disk, sink, checks),
        Command::Replay { suite, item, list } => {
            show(alloc, suite, item, &list, files, sink, checks)
        }
        Command::Stored => list(alloc, disk, sink),
        Command::Make { seed, count } => make(rt, alloc, seed, count, sink, checks),
        Command::Explain { suite, item, list } => {
            explain_on(alloc, suite, item, &list, files, sink, checks)
        }
    }
}
