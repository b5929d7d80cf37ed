ghost use Rattle.std.specs.Prelude.{◌≡◌, ℕ, List};
ghost use Rattle.pt_ast.specs.Plain.{plain_suite};
ghost use Rattle.pt_ast.specs.Sound.{IsSound};

use crate::{Item, Suite};
use std::marker::Model;

/// A well typed suite.
#[derive(Debug, Drop)]
pub struct Typed {
    suite: Suite,
}

impl Model for Typed {
    ghost use Rattle.std.specs.Prelude.{List, ℕ};
    ghost use Rattle.std.specs.Coded.{codes};
    ghost use Rattle.pt_ast.specs.contracts.suite.Suite as whole;
    ghost use Rattle.pt_ast.specs.declared.suite.Suite.{Suite};
    ghost use Rattle.pt_ast.specs.Plain.{plain_suite};
    ghost use Rattle.pt_ast.specs.Sound.{IsSound};

    ghost Value = { Suite };

    ghost coded = { Prim.hlevel (codes, whole.the_row.coded) };

    ghost view = { λ typed. typed.suite };

    ghost invariant = { λ typed. (known : List (List ℕ)) × IsSound known (plain_suite typed.suite) };
}

impl Typed {
    pub fn seal(suite: Suite) -> Typed
        requires { (known : List (List ℕ)) × IsSound known (plain_suite suite) }
        ensures { result ≡ suite }
    {
        Typed { suite }
    }

    pub fn items(&self) -> &[Item]
        ensures items { result.now ≡ self.now.items }
        ensures sound { (known : List (List ℕ)) × IsSound known (plain_suite self.now) }
    {
        self.suite.items.as_slice()
    }
}
