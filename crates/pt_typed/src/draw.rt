ghost use Rattle.std.specs.Prelude.{◌≡◌, ◌≢◌, is_some, IfOk, OnOk};
ghost use Rattle.pt_plan.specs.Came.{Drew};
ghost use Rattle.pt_plan.specs.Kept.{KeepsSpans};
ghost use Rattle.pt_plan.specs.Open.{open_spans};
ghost use Rattle.pt_typed.specs.Fail.{fail_halt, is_overrun_of};
ghost use Rattle.pt_typed.specs.Shown.{shown_by};

use crate::{DrawFail, Strategy};
use pt_case::Case;
use std::alloc::Global;

/// Draws a value of any strategy, with what the laws of strategies say of it.
pub fn draw_from<S: Strategy>(
    strategy: &S,
    alloc: Global,
    case: &mut Case,
) -> Result<S::Value, DrawFail>
    ensures drew { Drew fail_halt (S.plan strategy.now) case.old case.new (shown_by S.Value.val result) }
    ensures inside { IfOk result (λ value. S.values strategy.now (S.Value.val value)) }
    ensures spans { result ≢ Err DrawFail.NoMemory → KeepsSpans case.old case.new }
    ensures notes { result ≢ Err DrawFail.NoMemory → case.new.notes ≡ case.old.notes }
    ensures stopped { result ≢ Err DrawFail.NoMemory → is_some case.new.refused ≡ is_overrun_of result }
    ensures closed { OnOk result (open_spans case.new ≡ open_spans case.old) }
{
    strategy.draw(alloc, case)
}
