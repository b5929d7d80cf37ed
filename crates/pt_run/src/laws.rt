//! What follows of every call of `top`. These functions do nothing: their contracts are the laws.

ghost use Rattle.std.specs.Prelude.{◌≡◌, ◌⊎◌, ◌<◌, ℕ, Bool, List, [], Contains, IsSome, Some, String, map};
ghost use Rattle.std.specs.declared.alloc.Global.{Global};
ghost use Rattle.pt_ast.specs.Trees.{SuiteTree};
ghost use Rattle.pt_case.specs.declared.record.Record.{Record};
ghost use Rattle.pt_disk.specs.Files.{Files};
ghost use Rattle.pt_disk.specs.Folder.{reads, IsImage};
ghost use Rattle.pt_disk.specs.Leaves.{IsTidy};
ghost use Rattle.pt_disk.specs.Moments.{Told, now, IsImageSince};
ghost use Rattle.pt_found.specs.declared.finding.Finding.{Finding};
ghost use Rattle.pt_found.specs.declared.finding.Found.{Found};
ghost use Rattle.pt_found.specs.declared.finding.Verdict.TheVariants.{Failed};
ghost use Rattle.pt_io.specs.Files.{IsSame};
ghost use Rattle.pt_run.specs.Call.{Call, Answers, IsQuiet, IsDone, IsRunnable, AsksAgain, Replays};
ghost use Rattle.pt_stored.specs.Stored.{SameStored, pending};
ghost use Rattle.pt_turns.specs.Agree.{AgreeWhereOwn};
ghost use Rattle.pt_turns.specs.Blocks.{AreWritten};
ghost use Rattle.pt_run.specs.Crash.{OfTaken, IsSafe, IsLeft, IsLeftSince, IsLeftAtExit, IsLeftAtEnd};
ghost use Rattle.pt_run.specs.Ends.{EndsShort};
ghost use Rattle.pt_run.specs.Outside.{Outside};
ghost use Rattle.pt_run.specs.Suite.{HaveOwnNames, IsTaken};
ghost use Rattle.pt_commands.specs.Words.{Asked, Asks, AsksRun};

use pt_case::Check;
use pt_parse::{one_suite, suite_or_fault};
use pt_typing::suites_are_decided;

/// Completeness: where the words ask for what can be done, and no call of the outside fails, it is done.
pub fn what_can_be_done_is_done<C: Check>(checks: &[C])
    ensures { (call : Call) (asked : Asked) → Answers C.name C.step checks.now call → Asks call.words asked
        → IsRunnable (map C.name checks.now) call.before.files asked → IsQuiet call → IsDone C.name C.step checks.now asked call }
{
    one_suite();
    suite_or_fault();
    suites_are_decided();
}

/// A printed failure replays to exactly itself: a later call over the same files, which are told, whose words ask for
/// a replay of its printed choices on its item, ends with this very record and writes what it shows, where no call of
/// the outside fails.
pub fn a_printed_failure_replays_to_itself<C: Check>(checks: &[C])
    ensures { (run again : Call) (suite : List ℕ) (seed workers : ℕ) (finding : Finding) (shown : Record) (found : Found) (spent : Bool)
        → HaveOwnNames C.name checks.now
        → Answers C.name C.step checks.now run → AsksRun run.words suite seed workers
        → Contains run.finish.findings finding → finding.verdict ≡ Failed shown found spent
        → IsSome run.before.files.named → IsSame run.before.files again.before.files
        → Answers C.name C.step checks.now again → AsksAgain again.words suite finding.name shown → IsQuiet again
        → Replays again finding.name shown }
{
    one_suite();
    suite_or_fault();
    suites_are_decided();
}

/// The workers change nothing but the reductions: two runs of one file, which is told, with one seed, over disks that tell and store the
/// same, that both came to their end with status 0 or 1, found the same of each item whose name's digest is that of no earlier item's,
/// whatever numbers of workers they had.
pub fn workers_change_no_finding<C: Check>(checks: &[C])
    requires { HaveOwnNames C.name checks.now }
    ensures { (one other : Call) (file : List ℕ) (seed workers more : ℕ) (told telling : Told)
        → Answers C.name C.step checks.now one → AsksRun one.words file seed workers → one.finish.status < 2
        → Answers C.name C.step checks.now other → AsksRun other.words file seed more → other.finish.status < 2
        → IsSome one.before.files.named → IsSame one.before.files other.before.files
        → one.before.disk.told ≡ Some told → other.before.disk.told ≡ Some telling → SameStored (reads (now told)) (reads (now telling))
        → (suite : SuiteTree) × IsTaken (map C.name checks.now) one.before.files one.after.files file suite
        × AgreeWhereOwn C.name C.step checks.now [] suite.items one.finish.findings other.finish.findings }
{
    one_suite();
    pt_turns::workers_change_no_finding(checks);
}

/// What a crash leaves of a run on a disk that tells and was tidy at the start, whatever the run came to, and after want of memory. At each moment since
/// the start it is what a crash might have left then, or the files from then after some first ones of the edits of the turns, and nothing is lost, nothing invented, and no other file changed.
/// At the exit it has all edits of the turns of the findings, and each failure that was shown, and with status 0 or 1 it is what was stored after all turns.
pub fn what_survives_a_crash<C: Check>(checks: &[C])
    ensures since { (call : Call) (file : List ℕ) (seed workers : ℕ) (old new : Told) (image : Files)
        → Answers C.name C.step checks.now call → AsksRun call.words file seed workers
        → call.before.disk.told ≡ Some old → call.after.disk.told ≡ Some new
        → IsTidy pending (now old) → IsImageSince new old.clock image
        → IsLeftSince C.name C.step checks.now seed file call.before call.after call.finish.findings old image }
    ensures exit { (call : Call) (file : List ℕ) (seed workers : ℕ) (old new : Told) (image : Files)
        → Answers C.name C.step checks.now call → AsksRun call.words file seed workers
        → call.before.disk.told ≡ Some old → call.after.disk.told ≡ Some new
        → IsTidy pending (now old) → IsImage (now new) image
        → IsLeftAtExit C.name C.step checks.now seed file call.before call.after call.finish.findings old image }
    ensures end { (call : Call) (file : List ℕ) (seed workers : ℕ) (old new : Told) (image : Files)
        → Answers C.name C.step checks.now call → AsksRun call.words file seed workers → call.finish.status < 2
        → call.before.disk.told ≡ Some old → call.after.disk.told ≡ Some new
        → IsTidy pending (now old) → IsImage (now new) image
        → IsLeftAtEnd C.name C.step checks.now seed file call.before call.after call.finish.findings old image }
    ensures short_since { (words : List (String Global)) (before after : Outside) (file : List ℕ) (seed workers : ℕ) (old new : Told) (image : Files)
        → EndsShort C.name C.step checks.now words before after → AsksRun words file seed workers
        → before.disk.told ≡ Some old → after.disk.told ≡ Some new
        → IsTidy pending (now old) → IsImageSince new old.clock image
        → IsImage (now old) image ⊎ ((findings : List Finding) × AreWritten findings before.sink.bytes after.sink.bytes
        × OfTaken C.name C.step checks.now file before after (IsSafe C.name C.step checks.now seed findings old image)) }
    ensures short_exit { (words : List (String Global)) (before after : Outside) (file : List ℕ) (seed workers : ℕ) (old new : Told) (image : Files)
        → EndsShort C.name C.step checks.now words before after → AsksRun words file seed workers
        → before.disk.told ≡ Some old → after.disk.told ≡ Some new
        → IsTidy pending (now old) → IsImage (now new) image
        → (findings : List Finding) × AreWritten findings before.sink.bytes after.sink.bytes
        × OfTaken C.name C.step checks.now file before after (IsLeft C.name C.step checks.now seed findings old image) }
{}
