//! What follows for every item. These functions do nothing: their contracts are the laws.

ghost use Rattle.std.specs.Prelude.{ℕ, List};
ghost use Rattle.std.specs.List.{AllByRecursion};
ghost use Rattle.pt_ast.specs.Trees.{ItemTree, SuiteTree};
ghost use Rattle.pt_ast.specs.Suites.{IsTyped};
ghost use Rattle.pt_case.specs.declared.record.Record.{Record};
ghost use Rattle.pt_case.specs.Ending.{is_pass};
ghost use Rattle.pt_case.specs.Source.{Source};
ghost use Rattle.pt_case.specs.Run.{IsRecordOver};
ghost use Rattle.pt_item.specs.Item.{IsHandedIn, OfItem};
ghost use Rattle.pt_item.specs.Noted.{NotedBy};

use pt_case::Check;
use pt_machine::a_machine_notes_its_steps;
use pt_prop::a_property_notes_what_it_draws;

/// Where a suite is well typed, each of its items that asks for a check has one of its name among those that are handed in.
pub fn typed_items_are_handed_in()
    ensures { (known : List (List ℕ)) (suite : SuiteTree) → IsTyped known suite → AllByRecursion (IsHandedIn known) suite.items }
{}

/// Each record of an item's check, whatever its choices came from, notes what the item's strategies, bundles and steps allow.
pub fn an_item_notes_what_it_draws<C: Check>(checks: &[C])
    ensures { (item : ItemTree) (source : Source) (rec : Record) →
        OfItem C.name C.step checks.now item (λ says. IsRecordOver says source rec) → NotedBy item (is_pass rec.ending) rec.notes }
{
    a_property_notes_what_it_draws();
    a_machine_notes_its_steps();
}
