ghost use Rattle.std.specs.Prelude.{◌≡◌, OnOk, if◌then◌else◌, Some, None};
ghost use Rattle.pt_plan.specs.Came.{Drew};
ghost use Rattle.pt_plan.specs.Stop.{draw_halt};
ghost use Rattle.pt_plan.specs.Open.{open_spans};
ghost use Rattle.pt_strat.specs.Parts.{item_plan, sample_plan, more_plan};

use crate::bounds::bad_bounds;
use crate::places::draw_place;
use pt_case::Case;
use pt_plan::{DrawStop, ask_flag};
use pt_val::{Place, Val};

/// One of the values of a sample, of which there are to be 1 to 256.
pub(crate) fn draw_sample(at: Place, items: &[Val], case: &mut Case) -> Result<Val, DrawStop>
    ensures drew { Drew draw_halt (sample_plan at items.now) case.old case.new result }
    ensures closed { OnOk result (open_spans case.new ≡ open_spans case.old) }
{
    if items.is_empty() || items.len() > 256 {
        return Err(bad_bounds(at));
    }
    draw_item(items, case)
}

/// One of some values.
pub(crate) fn draw_item(items: &[Val], case: &mut Case) -> Result<Val, DrawStop>
    ensures drew { Drew draw_halt (item_plan items.now) case.old case.new result }
    ensures closed { OnOk result (open_spans case.new ≡ open_spans case.old) }
{
    let place = draw_place(items.len(), case)?;
    if place >= items.len() {
        return Err(DrawStop::Reject);
    }
    Ok(items[place].copy()?)
}

/// Whether a list of so many elements gets one more. It is not asked below the least number.
pub(crate) fn ask_more(least: usize, count: usize, case: &mut Case) -> Result<bool, DrawStop>
    ensures drew { Drew draw_halt (more_plan least count) case.old case.new result }
    ensures closed { OnOk result (open_spans case.new ≡ open_spans case.old) }
{
    if count < least {
        return Ok(true);
    }
    Ok(ask_flag(case, 12)?)
}

/// The value, where it is wanted.
pub(crate) fn kept(value: Val, is_wanted: bool) -> Option<Val>
    ensures { result ≡ (if is_wanted then Some value else None) }
{
    if is_wanted { Some(value) } else { None }
}
