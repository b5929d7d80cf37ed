ghost use Rattle.std.specs.Prelude.{◌≡◌};
ghost use Rattle.tests_all.specs.Rules.{always_answer};

use pt_case::{Case, Check, Ending, Origin};
use pt_choice::NoMemory;
use pt_val::Name;

/// Fails at once.
#[derive(Drop)]
pub struct Always {
    pub name: Name,
}

impl Check for Always {
    ghost name = { λ check. check.name };

    ghost step = { λ check choices said. said ≡ always_answer choices };

    fn name(&self) -> &Name {
        &self.name
    }

    fn run(&self, _: &mut Case) -> Result<Ending, NoMemory> {
        Ok(Ending::Fail(Origin::Point(1)))
    }
}
