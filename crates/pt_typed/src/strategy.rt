ghost use Rattle.pt_plan.specs.Came.{Drew};
ghost use Rattle.pt_typed.specs.Fail.{fail_halt};
ghost use Rattle.pt_typed.specs.Shown.{shown_by};

use crate::{DrawFail, ToVal};
use pt_case::Case;
use std::alloc::Global;

/// What draws values from a case.
///
/// Its plan says what is asked and entered on the way to a value. What stands after a list of choices is read off it.
pub trait Strategy {
    ghost use Rattle.pt_val.specs.declared.val.Val.{Val};
    ghost use Rattle.pt_plan.specs.Plan.{Plan};
    ghost use Rattle.pt_typed.specs.Strategy.{IsStrategy};

    type Value: ToVal;

    /// What is done to draw a value.
    ghost plan: { Self → Plan Val };

    /// Which values may come of it.
    ghost values: { Self → Val → Type 0 };

    fn draw(&self, alloc: Global, case: &mut Case) -> Result<Self::Value, DrawFail>
        ensures { Drew fail_halt (plan self.now) case.old case.new (shown_by Self.Value.val result) };

    /// It comes to its values alone, leaves its own spans and no others, notes nothing, and begins by asking or entering.
    ghost lawful: { (strategy : Self) → IsStrategy (values strategy) (plan strategy) };
}
