ghost use Rattle.std.specs.Prelude.{◌≡◌, None};
ghost use Rattle.pt_plan.specs.Came.{Drew};
ghost use Rattle.pt_plan.specs.Every.{IsBalanced};
ghost use Rattle.pt_plan.specs.Stop.{draw_halt};
ghost use Rattle.pt_rules.specs.Stepped.{stepped};

use pt_case::{Case, Ending};
use pt_choice::NoMemory;
use pt_val::{Name, Val};

/// A rule of a machine: what may happen to its state.
pub trait Rule: Drop + Send + Sync {
    ghost use Rattle.pt_rules.specs.Meaning.{Meaning};

    ghost meaning: { Self → Meaning };

    /// What is shown before each of its steps.
    fn name(&self) -> &Name
        ensures { result.now ≡ (meaning self.now).name };

    /// Whether it may make a step from this state.
    fn enabled(&self, state: &Val) -> bool
        ensures { result ≡ (meaning self.now).enabled state.now };

    /// Makes a step, which leaves its own spans and no others. Where it ends otherwise than with `Pass`, the run ends, and nothing
    /// is said of the state.
    fn step(&self, state: &mut Val, case: &mut Case) -> Result<Ending, NoMemory>
        requires { case.old.refused ≡ None }
        ensures drew { Drew draw_halt ((meaning self.now).step state.old) case.old case.new (stepped state.new result) }
        ensures balanced { IsBalanced ((meaning self.now).step state.old) };
}

impl Rule for Box<dyn Rule> {
    ghost meaning = { λ boxed. (Rule-box boxed).meaning boxed.value };

    fn name(&self) -> &Name {
        (**self).name()
    }

    fn enabled(&self, state: &Val) -> bool {
        (**self).enabled(state)
    }

    fn step(&self, state: &mut Val, case: &mut Case) -> Result<Ending, NoMemory> {
        (**self).step(state, case)
    }
}
