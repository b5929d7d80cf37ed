//! Checks for the tests.

ghost use Rattle.std.specs.Prelude.{◌≡◌, [], false};
ghost use Rattle.pt_case.specs.Ending.{is_overrun};
ghost use Rattle.pt_case.specs.Step.{End};
ghost use Rattle.pt_plan.specs.Came.{Drew};
ghost use Rattle.pt_plan.specs.Ended.{Settles};
ghost use Rattle.pt_plan.specs.Says.{plan_says};
ghost use Rattle.pt_plan.specs.Stop.{draw_halt};
ghost use Rattle.tests_program.specs.Samples.{noting_plan};

use pt_case::{Case, Check, Ending, Origin, What};
use pt_choice::NoMemory;
use pt_plan::{DrawStop, ask_flag, ending_of, note};
use pt_val::{Name, Place, Val};
use std::alloc::Global;

/// How a check ends that draws nothing.
#[derive(Clone, Copy, Debug)]
pub enum Way {
    Passes,
    Rejects,
    /// It divides by 0 at line 3, column 12 of a suite.
    Divides,
}

impl Way {
    fn ending(self) -> Ending
        ensures { is_overrun result ≡ false }
    {
        const PLACE: Place = Place {
            line: 3,
            column: 12,
        };
        match self {
            Way::Passes => Ending::Pass,
            Way::Rejects => Ending::Reject,
            Way::Divides => Ending::Fail(Origin::Suite {
                what: What::Division,
                place: PLACE,
            }),
        }
    }
}

/// Draws nothing, and ends so.
#[derive(Debug, Drop)]
pub struct Ends {
    name: Name,
    ending: Ending,
    ghost by_itself: { is_overrun ending ≡ false },
}

impl Ends {
    /// The check `sample`, which ends in this way.
    pub fn of(alloc: Global, way: Way) -> Result<Ends, NoMemory> {
        let ending = way.ending();
        match Name::of(alloc, "sample") {
            Ok(name) => Ok(Ends { name, ending }),
            Err(_) => Err(NoMemory),
        }
    }
}

impl Check for Ends {
    ghost name = { λ check. check.name };

    ghost step = { λ check choices said. said ≡ End check.ending [] [] };

    fn name(&self) -> &Name {
        &self.name
    }

    fn run(&self, _: &mut Case) -> Result<Ending, NoMemory> {
        Ok(self.ending)
    }
}

/// Notes 1, draws a boolean, notes 2, and fails at point 2.
#[derive(Debug, Drop)]
pub struct Noting {
    name: Name,
}

impl Noting {
    /// The check `sample`, which notes under its own name.
    pub fn of(alloc: Global) -> Result<Noting, NoMemory> {
        match Name::of(alloc, "sample") {
            Ok(name) => Ok(Noting { name }),
            Err(_) => Err(NoMemory),
        }
    }
}

impl Check for Noting {
    ghost name = { λ check. check.name };

    ghost step = { λ check. plan_says (noting_plan check.name) };

    fn name(&self) -> &Name {
        &self.name
    }

    fn run(&self, case: &mut Case) -> Result<Ending, NoMemory> {
        ending_of(notes_and_fails(&self.name, case))
    }
}

fn notes_and_fails(name: &Name, case: &mut Case) -> Result<Ending, DrawStop>
    ensures drew { Drew draw_halt (noting_plan name.now) case.old case.new result }
    ensures settles { Settles result }
{
    note(case, name.copy()?, Val::Int(1))?;
    ask_flag(case, 8)?;
    note(case, name.copy()?, Val::Int(2))?;
    Err(DrawStop::Fault(Origin::Point(2)))
}
