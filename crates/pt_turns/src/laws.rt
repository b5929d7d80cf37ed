//! What follows of the turns of any items. These functions do nothing: their contracts are the laws.

ghost use Rattle.std.specs.Prelude.{◌≡◌, ◌⊎◌, ◌<◌, ◌++◌, ℕ, List, [], map, Option, Some};
ghost use Rattle.pt_ast.specs.Bounds.{IsBounded};
ghost use Rattle.pt_ast.specs.Names.{AreDistinct};
ghost use Rattle.pt_ast.specs.Suites.{IsTyped};
ghost use Rattle.pt_ast.specs.Trees.{ItemTree, SuiteTree};
ghost use Rattle.pt_disk.specs.Files.{Files};
ghost use Rattle.pt_disk.specs.Folder.{reads, IsImage};
ghost use Rattle.pt_disk.specs.Leaves.{IsTidy};
ghost use Rattle.pt_disk.specs.Moments.{Told, now, IsImageSince};
ghost use Rattle.pt_edits.specs.Pairs.{PairEdit, StoresAfter};
ghost use Rattle.pt_found.specs.declared.finding.Finding.{Finding};
ghost use Rattle.pt_stored.specs.Stored.{SameStored, pending};
ghost use Rattle.pt_turns.specs.Agree.{AllAgree, AgreeWhereOwn};
ghost use Rattle.pt_turns.specs.Blocks.{AreWritten};
ghost use Rattle.pt_turns.specs.Crash.{IsMidway, IsAtExit, IsAtEnd};
ghost use Rattle.pt_turns.specs.Differences.{NothingIsLost, NothingIsInvented, NothingElseChanges};
ghost use Rattle.pt_turns.specs.Finishes.{Finishes, StoppedShort};
ghost use Rattle.pt_turns.specs.Kept.{AreKept, AreStillKept};
ghost use Rattle.pt_turns.specs.Ready.{AreReady};
ghost use Rattle.pt_turns.specs.Scene.{Scene};
ghost use Rattle.pt_turns.specs.Turns.{AreExamined, AreTurns};
ghost use Rattle.pt_turns.specs.declared.reporting.Reported.{Reported};

use pt_case::Check;
use pt_item::typed_items_are_handed_in;
use pt_wire::one_list;

/// The items of a suite that keeps its bounds and is well typed can be examined.
pub fn sound_items_are_ready()
    ensures { (known : List (List ℕ)) (suite : SuiteTree) → IsBounded suite → IsTyped known suite → AreReady known suite.items }
{
    typed_items_are_handed_in();
}

/// Of the same items and checks, whose names are distinct, and the same seed the same is found but for the reductions, which begin from one
/// failure, whatever numbers of workers made them: with nothing stored of each item, and in two runs over disks that store the same of each item whose name's
/// digest is that of no earlier name. Of the others it is not said, since what is stored for them depends on earlier reductions.
pub fn workers_change_no_finding<C: Check>(checks: &[C])
    requires { AreDistinct (map C.name checks.now) }
    ensures made { (seed : ℕ) (items : List ItemTree) (one other : List Finding) → AreExamined C.name C.step checks.now seed items one →
        AreExamined C.name C.step checks.now seed items other → AllAgree C.name C.step checks.now items one other }
    ensures run { (seed : ℕ) (told telling : Told) (items : List ItemTree) (one other : List Finding) (edits more : List PairEdit) →
        SameStored (reads (now told)) (reads (now telling)) → AreTurns C.name C.step checks.now seed (Some told) items one edits →
        AreTurns C.name C.step checks.now seed (Some telling) items other more → AgreeWhereOwn C.name C.step checks.now [] items one other }
{
    one_list();
}

/// After the turns of some items each failure that is shown is stored, in version 2, unless a later item's name has the digest of its item's name.
/// So it is after these edits and further ones, under other digests.
pub fn what_is_shown_is_stored<C: Check>(checks: &[C])
    ensures { (seed : ℕ) (told : Option Told) (items : List ItemTree) (findings : List Finding) (edits more : List PairEdit) (start image : Files)
        → AreTurns C.name C.step checks.now seed told items findings edits → StoresAfter (edits ++ more) start image
        → AreKept image more items findings }
{}

/// Of a run that began on a tidy disk a crash at any moment since leaves what it might have left at the start, or the files from the start
/// after some first ones of the run's edits. Those are the edits of the turns, in order, and where the run ended before its last item, of the next one's.
pub fn a_crash_leaves_first_edits<C: Check>(checks: &[C])
    ensures ended { (seed : ℕ) (items : List ItemTree) (reported : Reported) (old new : Scene) (start end : Told) (image : Files)
        → Finishes C.name C.step checks.now seed items reported old new → old.disk.told ≡ Some start → new.disk.told ≡ Some end
        → IsTidy pending (now start) → IsImageSince end start.clock image
        → IsImage (now start) image ⊎ IsMidway C.name C.step checks.now seed items reported.findings start image }
    ensures short { (seed : ℕ) (items : List ItemTree) (old new : Scene) (start end : Told) (image : Files)
        → StoppedShort C.name C.step checks.now seed items old new → old.disk.told ≡ Some start → new.disk.told ≡ Some end
        → IsTidy pending (now start) → IsImageSince end start.clock image
        → IsImage (now start) image
        ⊎ ((findings : List Finding) × AreWritten findings old.sink.bytes new.sink.bytes × IsMidway C.name C.step checks.now seed items findings start image) }
{}

/// What a crash leaves at any moment of a run: of what was stored nothing is missing but values under the digests of the items' names that spell no
/// list, those whose list does not fail on such an item, and those of version 1 that are kept in version 2; and nothing is new but failures of such items,
/// in version 2. No other file is changed, and none is left half written but the spare one. So it is too where names of several items have one digest.
pub fn a_run_loses_and_invents_nothing<C: Check>(checks: &[C])
    ensures lost { (seed : ℕ) (items : List ItemTree) (findings : List Finding) (start : Told) (image : Files)
        → IsMidway C.name C.step checks.now seed items findings start image → NothingIsLost C.name C.step checks.now items (reads (now start)) image }
    ensures invented { (seed : ℕ) (items : List ItemTree) (findings : List Finding) (start : Told) (image : Files)
        → IsMidway C.name C.step checks.now seed items findings start image → NothingIsInvented C.name C.step checks.now items (reads (now start)) image }
    ensures others { (seed : ℕ) (items : List ItemTree) (findings : List Finding) (start : Told) (image : Files)
        → IsMidway C.name C.step checks.now seed items findings start image → NothingElseChanges items (reads (now start)) image }
{}

/// What a crash leaves at the exit of a run that began on a tidy disk: with status 0 or 1 the files from the start, after all edits of the turns; with
/// each status, and after want of memory, these after all edits of the turns of the findings, and then some first ones of the next item's; and where
/// there is no finding, perhaps what it might have left at the start, as where the folder could not be settled.
pub fn an_exit_leaves_the_turns<C: Check>(checks: &[C])
    ensures whole { (seed : ℕ) (items : List ItemTree) (reported : Reported) (old new : Scene) (start end : Told) (image : Files)
        → Finishes C.name C.step checks.now seed items reported old new → reported.status < 2 → old.disk.told ≡ Some start → new.disk.told ≡ Some end
        → IsTidy pending (now start) → IsImage (now end) image → IsAtEnd C.name C.step checks.now seed items reported.findings start image }
    ensures ended { (seed : ℕ) (items : List ItemTree) (reported : Reported) (old new : Scene) (start end : Told) (image : Files)
        → Finishes C.name C.step checks.now seed items reported old new → old.disk.told ≡ Some start → new.disk.told ≡ Some end
        → IsTidy pending (now start) → IsImage (now end) image
        → ((reported.findings ≡ []) × IsImage (now start) image) ⊎ IsAtExit C.name C.step checks.now seed items reported.findings start image }
    ensures short { (seed : ℕ) (items : List ItemTree) (old new : Scene) (start end : Told) (image : Files)
        → StoppedShort C.name C.step checks.now seed items old new → old.disk.told ≡ Some start → new.disk.told ≡ Some end
        → IsTidy pending (now start) → IsImage (now end) image
        → (findings : List Finding) × AreWritten findings old.sink.bytes new.sink.bytes × IsAtExit C.name C.step checks.now seed items findings start image }
{}

/// What an exit leaves: each failure that was shown is stored, in version 2, unless a later item's name has the digest of its item's name. An exit
/// is a moment of the run, and where all items had their turns it leaves all their edits.
pub fn an_exit_keeps_what_was_shown<C: Check>(checks: &[C])
    ensures kept { (seed : ℕ) (items : List ItemTree) (findings : List Finding) (start : Told) (image : Files)
        → IsAtExit C.name C.step checks.now seed items findings start image → AreStillKept image items findings }
    ensures midway { (seed : ℕ) (items : List ItemTree) (findings : List Finding) (start : Told) (image : Files)
        → IsAtExit C.name C.step checks.now seed items findings start image → IsMidway C.name C.step checks.now seed items findings start image }
    ensures end { (seed : ℕ) (items : List ItemTree) (findings : List Finding) (start : Told) (image : Files)
        → IsAtEnd C.name C.step checks.now seed items findings start image → IsAtExit C.name C.step checks.now seed items findings start image }
{}
