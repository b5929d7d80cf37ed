ghost use Rattle.std.specs.Prelude.{◌≡◌, List, ℕ, IfOk};
ghost use Rattle.pt_choice.specs.declared.choice.Choice.{Choice};
ghost use Rattle.pt_rng.specs.Supplied.{supply_of_run};
ghost use Rattle.pt_case.specs.Step.{Answer};
ghost use Rattle.pt_case.specs.State.{IsNew};
ghost use Rattle.pt_case.specs.Run.{Ran, IsRecordOver, IsRecord, IsRun, AsksAfter};

use crate::{Case, Ending, Record};
use pt_choice::{Choices, Kind, NoMemory};
use pt_rng::Supply;
use pt_val::Name;
use std::alloc::Global;

/// A property that is checked by running it on choices.
pub trait Check: Drop + Send + Sync {
    /// The check's name.
    ghost name: { Self → List ℕ };

    /// What the check answers after these choices: it asks for another, it ends, or it is cut off at a span too many.
    /// Where it relates a list to no answer or to several, the list has none.
    ghost step: { Self → List Choice → Answer → Type 0 };

    fn name(&self) -> &Name
        ensures { result.now ≡ name self.now };

    /// Runs the check on a new case. It asks, enters spans, notes and ends as its answers say, and answers `Overrun`
    /// exactly where the case is stopped.
    fn run(&self, case: &mut Case) -> Result<Ending, NoMemory>
        requires { IsNew case.old }
        ensures { IfOk result (λ ending. Ran (step self.now) case.old case.new ending) };
}

impl Check for Box<dyn Check> {
    ghost name = { λ boxed. (Check-box boxed).name boxed.value };

    ghost step = { λ boxed. (Check-box boxed).step boxed.value };

    fn name(&self) -> &Name {
        (**self).name()
    }

    fn run(&self, case: &mut Case) -> Result<Ending, NoMemory> {
        (**self).run(case)
    }
}

/// The record of a list: its members answer the check's questions one after another, each made to fit the kind that
/// is asked for. Members that nobody asks for are dropped.
pub fn replay<C: Check>(alloc: Global, check: &C, list: &Choices) -> Result<Record, NoMemory>
    ensures { IfOk result (λ rec. IsRecord (C.step check.now) list.now rec) }
{
    recorded(check, Case::replay(alloc, list)?)
}

/// The record of a numbered run.
pub fn fresh<C: Check>(alloc: Global, check: &C, seed: u64, run: u64) -> Result<Record, NoMemory>
    ensures { IfOk result (λ rec. IsRun (C.step check.now) (supply_of_run seed run) rec) }
{
    recorded(check, Case::fresh(alloc, Supply::of_run(seed, run))?)
}

// The record of the check's run on a new case.
fn recorded<C: Check>(check: &C, mut case: Case) -> Result<Record, NoMemory>
    requires { IsNew case }
    ensures { IfOk result (λ rec. IsRecordOver (C.step check.now) case.left rec) }
{
    let ending = check.run(&mut case)?;
    Ok(case.finish(ending))
}

/// The kind that the check asks for after the choices of the list's record, so that a list can be made longer. None
/// where it ends there, or wants a span too many.
pub fn asks<C: Check>(alloc: Global, check: &C, list: &Choices) -> Result<Option<Kind>, NoMemory>
    ensures { IfOk result (λ asked. AsksAfter (C.step check.now) list.now asked) }
{
    let mut case = Case::replay(alloc, list)?;
    let _ending = check.run(&mut case)?;
    Ok(case.kind_refused())
}
