ghost use Rattle.std.specs.Prelude.{◌≡◌, IfOk};
ghost use Rattle.pt_checks.specs.Checks.{always_name, always_says};

use pt_case::{Case, Check, Ending, Origin};
use pt_choice::NoMemory;
use pt_val::Name;
use std::alloc::Global;

/// The check `always`: it draws nothing, and fails at point 1.
#[derive(Debug, Drop)]
pub struct Always {
    name: Name,
    ghost named: { name ≡ always_name },
}

impl Always {
    /// The check, under its name.
    pub fn of(alloc: Global) -> Result<Always, NoMemory>
        ensures { IfOk result (λ check. check.name ≡ always_name) }
    {
        match Name::of(alloc, "always") {
            Ok(name) => Ok(Always { name }),
            Err(_) => Err(NoMemory),
        }
    }
}

impl Check for Always {
    ghost name = { λ check. check.name };

    ghost step = { λ check. always_says };

    fn name(&self) -> &Name {
        &self.name
    }

    fn run(&self, _: &mut Case) -> Result<Ending, NoMemory> {
        Ok(Ending::Fail(Origin::Point(1)))
    }
}
