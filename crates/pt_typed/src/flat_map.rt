ghost use Rattle.std.specs.Prelude.{◌≡◌, true, ◌↔◌, IfOk};
ghost use Rattle.pt_val.specs.declared.val.Val.{Val};

use crate::{DrawFail, Strategy, ToVal, draw_from};
use pt_case::Case;
use pt_choice::NoMemory;
use pt_plan::{enter, leave};
use std::alloc::Global;

const FLAT_MAP: u32 = 12;

/// What makes a strategy of a first value. Its answer other than want of memory follows from its argument.
pub trait Next<V: ToVal>: Drop {
    ghost use Rattle.std.specs.Prelude.{Bool, true};
    ghost use Rattle.pt_val.specs.declared.val.Val.{Val};
    ghost use Rattle.pt_plan.specs.Plan.{Plan};
    ghost use Rattle.pt_typed.specs.Strategy.{IsStrategy};

    type Strategy: Strategy + Drop;

    /// At which values it may be called: at all, unless an impl says otherwise.
    ghost takes: { Self → Val → Bool } = { λ _ _. true };

    /// What the strategy does that it answers, and which values may come of it.
    ghost plan: { Self → Val → Plan Val };

    ghost values: { Self → Val → Val → Type 0 };

    fn next(&self, alloc: Global, value: V) -> Result<Self::Strategy, NoMemory>
        requires { takes self.now (V.val value) ≡ true }
        ensures plan { IfOk result (λ strategy. Self.Strategy.plan strategy ≡ plan self.now (V.val value)) }
        ensures values { IfOk result (λ strategy. (last : Val) → Self.Strategy.values strategy last ↔ values self.now (V.val value) last) };

    ghost lawful: { (f : Self) (value : Val) → takes f value ≡ true → IsStrategy (values f value) (plan f value) };
}

/// The values of the strategies that the values of a first one lead to.
#[derive(Drop)]
pub struct FlatMap<S: Strategy, F: Next<S::Value>> {
    inner: S,
    f: F,
    ghost taken: { (value : Val) → S.values inner value → F.takes f value ≡ true },
}

impl<S: Strategy, F: Next<S::Value>> FlatMap<S, F> {
    pub fn of(inner: S, f: F) -> FlatMap<S, F>
        requires { (value : Val) → S.values inner value → F.takes f value ≡ true }
        ensures inner { result.inner ≡ inner }
        ensures f { result.f ≡ f }
    {
        FlatMap { inner, f }
    }
}

impl<S: Strategy, F: Next<S::Value>> Strategy for FlatMap<S, F> {
    ghost use Rattle.pt_typed.specs.Plans.{flat_map_plan};
    ghost use Rattle.pt_typed.specs.Sets.{IsLedTo};
    ghost use Rattle.pt_typed.specs.Laws.{flat_map-lawful};

    type Value = <F::Strategy as Strategy>::Value;

    ghost plan = { λ flat. flat_map_plan (S.plan flat.inner) (F.plan flat.f) };

    ghost values = { λ flat. IsLedTo (S.values flat.inner) (F.values flat.f) };

    ghost lawful = { λ flat. flat_map-lawful _ _ _ _ (S.lawful flat.inner) (λ value is. F.lawful flat.f value (flat.taken value is)) };

    fn draw(
        &self,
        alloc: Global,
        case: &mut Case,
    ) -> Result<<F::Strategy as Strategy>::Value, DrawFail> {
        enter(case, FLAT_MAP)?;
        let first = draw_from(&self.inner, alloc, case)?;
        let next = self.f.next(alloc, first)?;
        let value = draw_from(&next, alloc, case)?;
        leave(case);
        Ok(value)
    }
}
