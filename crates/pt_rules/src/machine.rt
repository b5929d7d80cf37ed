ghost use Rattle.std.specs.Prelude.{◌≤◌, length};

use crate::Rule;
use crate::run::make_steps;
use pt_case::{Case, Check, Ending};
use pt_choice::NoMemory;
use pt_plan::ending_of;
use pt_val::{Name, Val};

/// The most steps of a machine.
pub const MAX_STEPS: u32 = 64;

/// The most rules of a machine.
pub const MAX_RULES: usize = 64;

/// A check that makes steps of rules from a state, at most so many, each of a rule that is enabled then.
pub struct RuleMachine {
    pub name: Name,
    pub start: Val,
    pub rules: Vec<Box<dyn Rule>>,
    pub steps: u32,
    ghost some_steps: { 1 ≤ steps },
    ghost few_steps: { steps ≤ 64 },
    ghost few_rules: { length rules.items ≤ 64 },
}

impl Drop for RuleMachine {
    fn drop(self) {
        let RuleMachine {
            name: _,
            start: _,
            rules: _,
            steps: _,
        } = self;
    }
}

impl Check for RuleMachine {
    ghost use Rattle.std.specs.Prelude.{map};
    ghost use Rattle.pt_plan.specs.Says.{plan_says};
    ghost use Rattle.pt_rules.specs.Machine.{steps_plan};

    ghost name = { λ machine. machine.name };

    ghost step = { λ machine. plan_says (steps_plan (map (λ boxed. (Rule-box boxed).meaning boxed.value) machine.rules.items) machine.steps machine.start) };

    fn name(&self) -> &Name {
        &self.name
    }

    fn run(&self, case: &mut Case) -> Result<Ending, NoMemory> {
        ending_of(make_steps(
            self.rules.as_slice(),
            self.steps,
            self.start.copy()?,
            *self.rules.allocator(),
            case,
        ))
    }
}
