ghost use Rattle.std.specs.Prelude.{◌≡◌, true, IfOk};
ghost use Rattle.pt_val.specs.declared.val.Val.{Val};

use crate::{DrawFail, Strategy, ToVal, draw_from};
use pt_case::Case;
use pt_choice::NoMemory;
use pt_plan::{enter, leave};
use std::alloc::Global;

const MAP: u32 = 10;

/// A function that is applied to what a strategy draws. Its answer other than want of memory follows from its argument.
pub trait Function<V: ToVal>: Drop {
    ghost use Rattle.std.specs.Prelude.{Bool, true};
    ghost use Rattle.pt_val.specs.declared.val.Val.{Val};

    type Output: ToVal;

    /// At which values it may be called: at all, unless an impl says otherwise.
    ghost takes: { Self → Val → Bool } = { λ _ _. true };

    /// What it answers.
    ghost image: { Self → Val → Val };

    fn apply(&self, alloc: Global, value: V) -> Result<Self::Output, NoMemory>
        requires { takes self.now (V.val value) ≡ true }
        ensures { IfOk result (λ output. Self.Output.val output ≡ image self.now (V.val value)) };
}

/// The images of the values of a strategy.
#[derive(Drop)]
pub struct Map<S: Strategy, F: Function<S::Value>> {
    inner: S,
    f: F,
    ghost taken: { (value : Val) → S.values inner value → F.takes f value ≡ true },
}

impl<S: Strategy, F: Function<S::Value>> Map<S, F> {
    pub fn of(inner: S, f: F) -> Map<S, F>
        requires { (value : Val) → S.values inner value → F.takes f value ≡ true }
        ensures inner { result.inner ≡ inner }
        ensures f { result.f ≡ f }
    {
        Map { inner, f }
    }
}

impl<S: Strategy, F: Function<S::Value>> Strategy for Map<S, F> {
    ghost use Rattle.pt_typed.specs.Plans.{map_plan};
    ghost use Rattle.pt_typed.specs.Sets.{IsImageOf};
    ghost use Rattle.pt_typed.specs.Laws.{map-lawful};

    type Value = F::Output;

    ghost plan = { λ map. map_plan (S.plan map.inner) (F.image map.f) };

    ghost values = { λ map. IsImageOf (S.values map.inner) (F.image map.f) };

    ghost lawful = { λ map. map-lawful _ _ (F.image map.f) (S.lawful map.inner) };

    fn draw(&self, alloc: Global, case: &mut Case) -> Result<F::Output, DrawFail> {
        enter(case, MAP)?;
        let value = draw_from(&self.inner, alloc, case)?;
        leave(case);
        Ok(self.f.apply(alloc, value)?)
    }
}
