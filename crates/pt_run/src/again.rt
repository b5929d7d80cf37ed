ghost use Rattle.std.specs.Prelude.{◌≡◌, ◌<◌, ℕ, List, [], IsSome, Some, map};
ghost use Rattle.pt_ast.specs.Trees.{SuiteTree};
ghost use Rattle.pt_disk.specs.Folder.{reads};
ghost use Rattle.pt_disk.specs.Moments.{Told, now};
ghost use Rattle.pt_io.specs.Files.{IsSame};
ghost use Rattle.pt_run.specs.Call.{Call, Answers};
ghost use Rattle.pt_run.specs.Suite.{HaveOwnNames, IsTaken};
ghost use Rattle.pt_commands.specs.Words.{AsksRun};
ghost use Rattle.pt_stored.specs.Stored.{SameStored};
ghost use Rattle.pt_turns.specs.Again.{AreFoundAgain};

use pt_case::Check;
use pt_parse::one_suite;

/// What a run showed is found again: a second run of the same file, which is told, over a disk that tells and stores at its start what the
/// first one's disk stored at its end, begins with each failure that the first one showed, whatever seeds and numbers of workers the two had; and with one seed it passes what the
/// first one passed. Both came to their end with status 0 or 1. It is said of each item whose name's digest is that of no other item's name. This function does nothing: its
/// contract is that law.
pub fn what_is_shown_is_found_again<C: Check>(checks: &[C])
    requires { HaveOwnNames C.name checks.now }
    ensures { (one other : Call) (file : List ℕ) (seed anew workers more : ℕ) (told end telling : Told)
        → Answers C.name C.step checks.now one → AsksRun one.words file seed workers → one.finish.status < 2
        → Answers C.name C.step checks.now other → AsksRun other.words file anew more → other.finish.status < 2
        → IsSome one.before.files.named → IsSame one.before.files other.before.files
        → one.before.disk.told ≡ Some told → one.after.disk.told ≡ Some end → other.before.disk.told ≡ Some telling
        → SameStored (reads (now end)) (reads (now telling))
        → (suite : SuiteTree) × IsTaken (map C.name checks.now) one.before.files one.after.files file suite
        × AreFoundAgain C.name C.step checks.now seed anew [] suite.items one.finish.findings other.finish.findings }
{
    one_suite();
    pt_turns::what_is_shown_is_found_again(checks);
}
