ghost use Rattle.std.specs.Prelude.{◌≡◌, OnOk};
ghost use Rattle.pt_plan.specs.Came.{Drew};
ghost use Rattle.pt_plan.specs.Open.{open_spans};
ghost use Rattle.pt_typed.specs.Fail.{fail_halt};
ghost use Rattle.pt_typed.specs.Shown.{shown_by};
ghost use Rattle.pt_typed.specs.Plans.{either_plan};

use crate::{DrawFail, Strategy, draw_from};
use pt_case::Case;
use pt_plan::{ask_integer, enter, leave};
use std::alloc::Global;

const ONE_OF: u32 = 9;

/// The values of either of two strategies. Reductions go toward the first.
#[derive(Drop)]
pub struct OneOf<A, B> {
    a: A,
    b: B,
}

impl<A: Strategy, B: Strategy<Value = A::Value>> OneOf<A, B> {
    pub fn of(a: A, b: B) -> OneOf<A, B>
        ensures a { result.a ≡ a }
        ensures b { result.b ≡ b }
    {
        OneOf { a, b }
    }
}

impl<A: Strategy, B: Strategy<Value = A::Value>> Strategy for OneOf<A, B> {
    ghost use Rattle.pt_typed.specs.Plans.{one_of_plan};
    ghost use Rattle.pt_typed.specs.Sets.{IsInEither};
    ghost use Rattle.pt_typed.specs.Laws.{one_of-lawful};

    type Value = A::Value;

    ghost plan = { λ either. one_of_plan (A.plan either.a) (B.plan either.b) };

    ghost values = { λ either. IsInEither (A.values either.a) (B.values either.b) };

    ghost lawful = { λ either. one_of-lawful _ _ _ _ (A.lawful either.a) (B.lawful either.b) };

    fn draw(&self, alloc: Global, case: &mut Case) -> Result<A::Value, DrawFail> {
        enter(case, ONE_OF)?;
        let which = ask_integer(case, 0, 1)?;
        let value = self.draw_either(which, alloc, case)?;
        leave(case);
        Ok(value)
    }
}

impl<A: Strategy, B: Strategy<Value = A::Value>> OneOf<A, B> {
    // Draws of the first where the choice is 0, and else of the second.
    fn draw_either(&self, which: i128, alloc: Global, case: &mut Case) -> Result<A::Value, DrawFail>
        ensures drew { Drew fail_halt (either_plan (A.plan self.now.a) (B.plan self.now.b) which) case.old case.new (shown_by A.Value.val result) }
        ensures closed { OnOk result (open_spans case.new ≡ open_spans case.old) }
    {
        if which > 0 {
            draw_from(&self.b, alloc, case)
        } else {
            draw_from(&self.a, alloc, case)
        }
    }
}
