ghost use Rattle.std.specs.Prelude.{◌≡◌, true, OnOk};
ghost use Rattle.pt_val.specs.declared.val.Val.{Val};
ghost use Rattle.pt_plan.specs.Came.{Drew};
ghost use Rattle.pt_plan.specs.Open.{open_spans};
ghost use Rattle.pt_typed.specs.Fail.{fail_halt};
ghost use Rattle.pt_typed.specs.Shown.{shown_by};
ghost use Rattle.pt_typed.specs.Plans.{tries_plan};

use crate::{DrawFail, Strategy, ToVal, draw_from};
use pt_case::Case;
use pt_plan::{enter, leave};
use std::alloc::Global;

const FILTER: u32 = 11;

const TRY: u32 = 13;

const TRIES: u32 = 3;

/// A test of what a strategy draws. Its answer follows from the value.
pub trait Predicate<V: ToVal>: Drop {
    ghost use Rattle.std.specs.Prelude.{Bool, true};
    ghost use Rattle.pt_val.specs.declared.val.Val.{Val};

    /// At which values it may be called: at all, unless an impl says otherwise.
    ghost takes: { Self → Val → Bool } = { λ _ _. true };

    /// What it answers.
    ghost truth: { Self → Val → Bool };

    fn holds(&self, value: &V) -> bool
        requires { takes self.now (V.val value.now) ≡ true }
        ensures { result ≡ truth self.now (V.val value.now) };
}

/// The values of a strategy that pass a test. After three that do not, the choices are rejected.
#[derive(Drop)]
pub struct Filter<S: Strategy, F: Predicate<S::Value>> {
    inner: S,
    f: F,
    ghost taken: { (value : Val) → S.values inner value → F.takes f value ≡ true },
}

impl<S: Strategy, F: Predicate<S::Value>> Filter<S, F> {
    pub fn of(inner: S, f: F) -> Filter<S, F>
        requires { (value : Val) → S.values inner value → F.takes f value ≡ true }
        ensures inner { result.inner ≡ inner }
        ensures f { result.f ≡ f }
    {
        Filter { inner, f }
    }
}

impl<S: Strategy, F: Predicate<S::Value>> Strategy for Filter<S, F> {
    ghost use Rattle.pt_typed.specs.Plans.{filter_plan};
    ghost use Rattle.pt_typed.specs.Sets.{IsWanted};
    ghost use Rattle.pt_typed.specs.Laws.{filter-lawful};

    type Value = S::Value;

    ghost plan = { λ filter. filter_plan (S.plan filter.inner) (F.truth filter.f) };

    ghost values = { λ filter. IsWanted (S.values filter.inner) (F.truth filter.f) };

    ghost lawful = { λ filter. filter-lawful _ _ (F.truth filter.f) (S.lawful filter.inner) };

    fn draw(&self, alloc: Global, case: &mut Case) -> Result<S::Value, DrawFail> {
        enter(case, FILTER)?;
        let value = self.try_for(TRIES, alloc, case)?;
        leave(case);
        Ok(value)
    }
}

impl<S: Strategy, F: Predicate<S::Value>> Filter<S, F> {
    // The first value of so many tries that passes the test.
    fn try_for(&self, tries: u32, alloc: Global, case: &mut Case) -> Result<S::Value, DrawFail>
        ensures drew { Drew fail_halt (tries_plan (S.plan self.now.inner) (F.truth self.now.f) tries) case.old case.new (shown_by S.Value.val result) }
        ensures closed { OnOk result (open_spans case.new ≡ open_spans case.old) }
    {
        if tries == 0 {
            return Err(DrawFail::Reject);
        }
        enter(case, TRY)?;
        let value = draw_from(&self.inner, alloc, case)?;
        leave(case);
        let wanted = self.f.holds(&value);
        if wanted {
            return Ok(value);
        }
        self.try_for(tries - 1, alloc, case)
    }
}
