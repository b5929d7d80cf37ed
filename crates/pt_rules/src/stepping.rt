ghost use Rattle.std.specs.Prelude.{◌≡◌, Ok, OnErr};
ghost use Rattle.pt_rules.specs.Stepped.{stepped};

use pt_case::Ending;
use pt_choice::NoMemory;
use pt_plan::DrawStop;
use pt_val::Val;

/// How a step ended that goes on by `?` until a draw gives no value, and then comes to the next state: a rule's `step` hands
/// this on.
pub fn stepped(state: &mut Val, outcome: Result<Val, DrawStop>) -> Result<Ending, NoMemory>
    ensures { stepped state.new result ≡ outcome }
{
    match outcome {
        Ok(next) => {
            *state = next;
            Ok(Ending::Pass)
        }
        Err(DrawStop::Reject) => Ok(Ending::Reject),
        Err(DrawStop::Overrun) => Ok(Ending::Overrun),
        Err(DrawStop::Fault(origin)) => Ok(Ending::Fail(origin)),
        Err(DrawStop::NoMemory) => Err(NoMemory),
    }
}
