ghost use Rattle.std.specs.Prelude.{ℕ, List, [], map, Some};
ghost use Rattle.pt_ast.specs.Names.{AreDistinct};
ghost use Rattle.pt_ast.specs.Trees.{ItemTree};
ghost use Rattle.pt_disk.specs.Folder.{reads};
ghost use Rattle.pt_disk.specs.Moments.{Told, now};
ghost use Rattle.pt_edits.specs.Pairs.{PairEdit, StoresAfter};
ghost use Rattle.pt_found.specs.declared.finding.Finding.{Finding};
ghost use Rattle.pt_turns.specs.Again.{AreFoundAgain};
ghost use Rattle.pt_turns.specs.Turns.{AreTurns};

use pt_case::Check;

/// A second run, over the same items and a folder that stores what a first one left there, begins with each failure that the first one
/// showed: it finds it in the database, makes no run, and reduces that very record. Of an item of which no failure was shown no list is stored, and
/// with the same seed it is found as before. The two runs may have different seeds and numbers of workers. It is said of each item whose name's digest is that of no other item's name, since the turn of
/// another would replay its lists, and delete those that do not fail there. This function does nothing: its contract is that law.
pub fn what_is_shown_is_found_again<C: Check>(checks: &[C])
    requires { AreDistinct (map C.name checks.now) }
    ensures { (seed anew : ℕ) (told telling : Told) (items : List ItemTree) (one other : List Finding) (edits more : List PairEdit)
        → AreTurns C.name C.step checks.now seed (Some told) items one edits → StoresAfter edits (reads (now told)) (reads (now telling))
        → AreTurns C.name C.step checks.now anew (Some telling) items other more
        → AreFoundAgain C.name C.step checks.now seed anew [] items one other }
{}
