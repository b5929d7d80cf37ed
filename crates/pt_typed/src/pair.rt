ghost use Rattle.std.specs.Prelude.{◌≡◌};

use crate::{DrawFail, Strategy, draw_from};
use pt_case::Case;
use pt_plan::{enter, leave};
use std::alloc::Global;

const PAIR: u32 = 8;

/// Pairs of a value of one strategy and a value of another.
#[derive(Drop)]
pub struct Pair<A, B> {
    a: A,
    b: B,
}

impl<A: Strategy, B: Strategy> Pair<A, B> {
    pub fn of(a: A, b: B) -> Pair<A, B>
        ensures a { result.a ≡ a }
        ensures b { result.b ≡ b }
    {
        Pair { a, b }
    }
}

impl<A: Strategy, B: Strategy> Strategy for Pair<A, B> {
    ghost use Rattle.pt_typed.specs.Plans.{pair_plan};
    ghost use Rattle.pt_typed.specs.Sets.{IsPairOf};
    ghost use Rattle.pt_typed.specs.Laws.{pair-lawful};

    type Value = (A::Value, B::Value);

    ghost plan = { λ pair. pair_plan (A.plan pair.a) (B.plan pair.b) };

    ghost values = { λ pair. IsPairOf (A.values pair.a) (B.values pair.b) };

    ghost lawful = { λ pair. pair-lawful _ _ _ _ (A.lawful pair.a) (B.lawful pair.b) };

    fn draw(&self, alloc: Global, case: &mut Case) -> Result<(A::Value, B::Value), DrawFail> {
        enter(case, PAIR)?;
        let a = draw_from(&self.a, alloc, case)?;
        let b = draw_from(&self.b, alloc, case)?;
        leave(case);
        Ok((a, b))
    }
}
