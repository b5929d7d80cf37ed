ghost use Rattle.std.specs.Prelude.{◌≡◌, ◌≢◌, ◌⊎◌, false, None, is_some, IfOk, OnOk};
ghost use Rattle.pt_ast.specs.Plain.{plain_strat};
ghost use Rattle.pt_plan.specs.Plan.{Rejects};
ghost use Rattle.pt_plan.specs.Came.{Drew};
ghost use Rattle.pt_plan.specs.Stop.{draw_halt};
ghost use Rattle.pt_plan.specs.Kept.{KeepsSpans};
ghost use Rattle.pt_plan.specs.Open.{open_spans};
ghost use Rattle.pt_strat.specs.Strategy.{is_self, plan_of};
ghost use Rattle.pt_strat.specs.Member.{IsOneOf};
ghost use Rattle.pt_strat.specs.Laws.{is_overrun};

use crate::drawing::draw_in;
use crate::names::copy_of;
use crate::scope::outside;
use pt_ast::Strat;
use pt_case::Case;
use pt_eval::Env;
use pt_plan::DrawStop;
use pt_val::Val;
use std::alloc::Global;

/// Draws a value of a strategy.
///
/// It answers `Reject` where a filter met no value that it keeps in three tries, and `Fault` where an expression faults or
/// bounds are bad. A case that was stopped before refuses all but a `self` that stands in no `recursive`.
pub fn draw(alloc: Global, s: &Strat, env: &Env, case: &mut Case) -> Result<Val, DrawStop>
    ensures drew { Drew draw_halt (plan_of (plain_strat s.now) Rejects env.now) case.old case.new result }
    ensures inside { IfOk result (IsOneOf (plain_strat s.now) env.now) }
    ensures spans { result ≢ Err DrawStop.NoMemory → KeepsSpans case.old case.new }
    ensures notes { result ≢ Err DrawStop.NoMemory → case.new.notes ≡ case.old.notes }
    ensures stopped { (case.old.refused ≡ None) ⊎ (is_self (plain_strat s.now) ≡ false) → result ≢ Err DrawStop.NoMemory →
        is_some case.new.refused ≡ is_overrun result }
    ensures closed { OnOk result (open_spans case.new ≡ open_spans case.old) }
{
    let mut names = copy_of(alloc, env)?;
    draw_outside(alloc, s, &mut names, case)
}

/// Draws a value of a strategy that stands in no `recursive`. The names are as before at the end.
pub(crate) fn draw_outside(
    alloc: Global,
    s: &Strat,
    env: &mut Env,
    case: &mut Case,
) -> Result<Val, DrawStop>
    ensures drew { Drew draw_halt (plan_of (plain_strat s.now) Rejects env.old) case.old case.new result }
    ensures closed { OnOk result (open_spans case.new ≡ open_spans case.old) }
    ensures env { env.new ≡ env.old }
{
    let scope = outside();
    draw_in(alloc, s, &scope, env, case)
}
