//! What follows for every machine. These functions do nothing: their contracts are the laws.

ghost use Rattle.std.specs.Prelude.{ℕ};
ghost use Rattle.pt_ast.specs.Trees.{MachineTree};
ghost use Rattle.pt_case.specs.declared.record.Record.{Record};
ghost use Rattle.pt_case.specs.Ending.{is_pass};
ghost use Rattle.pt_case.specs.Source.{Source};
ghost use Rattle.pt_case.specs.Run.{IsRecordOver};
ghost use Rattle.pt_plan.specs.Says.{plan_says};
ghost use Rattle.pt_machine.specs.Machine.{machine_plan};
ghost use Rattle.pt_machine.specs.Noted.{AreMachineNotes};

/// Each record of a machine, whatever its choices came from, has the notes of so many steps, and no others. Each is that of a rule
/// that is enabled where the step begins, and then those of its statements: of a `draw` a value of its strategy, and of a `pick` an
/// entry of its bundle at that moment. The invariants are true wherever a step begins. The last step alone may have ended within
/// its statements, or in a world in which they are not true; where the record passes, it did not.
pub fn a_machine_notes_its_steps()
    ensures { (machine : MachineTree) (steps : ℕ) (source : Source) (rec : Record) →
        IsRecordOver (plan_says (machine_plan machine steps)) source rec → AreMachineNotes (is_pass rec.ending) machine steps rec.notes }
{}
