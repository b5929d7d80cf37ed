ghost use Rattle.std.specs.Prelude.{◌≢◌, IfErr};
ghost use Rattle.pt_edits.specs.Stops.{IsStopOf, IsAnswerOf};

use crate::{StoreStop, TwoValues};
use pt_db::StoreFault;

// The same answer of a store that was not dead.
pub(crate) fn answer_of(done: Result<(), StoreFault>) -> Result<(), StoreStop>
    requires alive { IfErr done (λ refusal. refusal ≢ StoreFault.Dead) }
    ensures { IsAnswerOf done result }
{
    match done {
        Ok(()) => Ok(()),
        Err(fault) => Err(stop_of(fault)),
    }
}

// Why the database did not do it.
pub(crate) fn stop_of(fault: StoreFault) -> StoreStop
    requires alive { fault ≢ StoreFault.Dead }
    ensures { IsStopOf fault result }
{
    match fault {
        StoreFault::Disk => StoreStop::Failed,
        StoreFault::Clash { kept, offered } => StoreStop::Clash(TwoValues { kept, offered }),
        StoreFault::NoMemory => StoreStop::NoMemory,
        StoreFault::Dead => unreachable!(),
    }
}
