ghost use Rattle.std.specs.Prelude.{◌≡◌};
ghost use Rattle.pt_plan.specs.Stop.{draw_halt};
ghost use Rattle.pt_plan.specs.Ended.{ended};

use crate::DrawStop;
use pt_case::Ending;
use pt_choice::NoMemory;

/// How a run ended that goes on by `?` until a draw gives no value: a check's `run` hands this on.
pub fn ending_of(outcome: Result<Ending, DrawStop>) -> Result<Ending, NoMemory>
    ensures { result ≡ ended draw_halt outcome }
{
    match outcome {
        Ok(ending) => Ok(ending),
        Err(DrawStop::Reject) => Ok(Ending::Reject),
        Err(DrawStop::Overrun) => Ok(Ending::Overrun),
        Err(DrawStop::Fault(origin)) => Ok(Ending::Fail(origin)),
        Err(DrawStop::NoMemory) => Err(NoMemory),
    }
}
