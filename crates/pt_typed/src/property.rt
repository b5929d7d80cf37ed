ghost use Rattle.std.specs.Prelude.{◌≡◌, true, false, codes, IfOk};
ghost use Rattle.pt_val.specs.declared.val.Val.{Val};
ghost use Rattle.pt_case.specs.Ending.{is_overrun};
ghost use Rattle.pt_plan.specs.Came.{Drew};
ghost use Rattle.pt_plan.specs.Ended.{Settles};
ghost use Rattle.pt_plan.specs.Stop.{draw_halt};
ghost use Rattle.pt_typed.specs.Property.{property_plan, value_word};

use crate::{Strategy, ToVal, draw_from};
use pt_case::{Case, Check, Ending};
use pt_choice::NoMemory;
use pt_plan::{DrawStop, ending_of, note};
use pt_val::Name;
use std::alloc::Global;

/// What a property says of a value. Its answer other than want of memory follows from the value.
pub trait Judge<V: ToVal>: Drop {
    ghost use Rattle.std.specs.Prelude.{Bool, true};
    ghost use Rattle.pt_val.specs.declared.val.Val.{Val};
    ghost use Rattle.pt_case.specs.declared.ending.Ending.{Ending};

    /// At which values it may be called: at all, unless an impl says otherwise.
    ghost takes: { Self → Val → Bool } = { λ _ _. true };

    /// What it answers.
    ghost verdict: { Self → Val → Ending };

    fn judge(&self, alloc: Global, value: &V) -> Result<Ending, NoMemory>
        requires { takes self.now (V.val value.now) ≡ true }
        ensures verdict { IfOk result (λ ending. ending ≡ verdict self.now (V.val value.now)) }
        ensures settled { IfOk result (λ ending. is_overrun ending ≡ false) };
}

/// A check that draws a value, shows it as `value`, and judges it.
#[derive(Drop)]
pub struct Property<S: Strategy, F: Judge<S::Value>> {
    name: Name,
    inner: S,
    judge: F,
    alloc: Global,
    ghost taken: { (value : Val) → S.values inner value → F.takes judge value ≡ true },
}

impl<S: Strategy, F: Judge<S::Value>> Property<S, F> {
    pub fn of(alloc: Global, name: Name, inner: S, judge: F) -> Property<S, F>
        requires { (value : Val) → S.values inner value → F.takes judge value ≡ true }
        ensures name { result.name ≡ name }
        ensures inner { result.inner ≡ inner }
        ensures judge { result.judge ≡ judge }
    {
        Property {
            name,
            inner,
            judge,
            alloc,
        }
    }

    fn judged(&self, case: &mut Case) -> Result<Ending, DrawStop>
        ensures drew { Drew draw_halt (property_plan (S.plan self.now.inner) (F.verdict self.now.judge)) case.old case.new result }
        ensures settles { Settles result }
    {
        let value = draw_from(&self.inner, self.alloc, case)?;
        note(case, value_word(self.alloc)?, value.to_val(self.alloc)?)?;
        Ok(self.judge.judge(self.alloc, &value)?)
    }
}

impl<S: Strategy + Drop + Send + Sync, F: Judge<S::Value> + Send + Sync> Check for Property<S, F> {
    ghost use Rattle.pt_plan.specs.Says.{plan_says};
    ghost use Rattle.pt_typed.specs.Property.{property_plan};

    ghost name = { λ property. property.name };

    ghost step = { λ property. plan_says (property_plan (S.plan property.inner) (F.verdict property.judge)) };

    fn name(&self) -> &Name {
        &self.name
    }

    fn run(&self, case: &mut Case) -> Result<Ending, NoMemory> {
        ending_of(self.judged(case))
    }
}

// The name that a property's value is shown under.
fn value_word(alloc: Global) -> Result<Name, NoMemory>
    ensures { IfOk result (λ name. name ≡ value_word) }
{
    match Name::of(alloc, "value") {
        Ok(name) => Ok(name),
        Err(_) => Err(NoMemory),
    }
}
