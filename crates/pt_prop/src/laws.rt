//! What follows for every property. These functions do nothing: their contracts are the laws.

ghost use Rattle.std.specs.Prelude.{List, []};
ghost use Rattle.pt_ast.specs.Trees.{StmtTree};
ghost use Rattle.pt_case.specs.declared.record.Record.{Record};
ghost use Rattle.pt_case.specs.Ending.{is_pass};
ghost use Rattle.pt_case.specs.Source.{Source};
ghost use Rattle.pt_case.specs.Run.{IsRecordOver};
ghost use Rattle.pt_plan.specs.Says.{plan_says};
ghost use Rattle.pt_prop.specs.Property.{property_plan};
ghost use Rattle.pt_prop.specs.Noted.{IsNoted};

/// Each record of a property, whatever its choices came from, has the notes of the first so many of its `draw`s, in order,
/// and no others: each draw's name with a value of its strategy. What stands behind an `assume` or `assert` noted only where
/// that was true. Where the record passes, all were true and every `draw` is noted.
pub fn a_property_notes_what_it_draws()
    ensures { (stmts : List StmtTree) (source : Source) (rec : Record) →
        IsRecordOver (plan_says (property_plan stmts)) source rec → IsNoted (is_pass rec.ending) stmts [] rec.notes }
{}
