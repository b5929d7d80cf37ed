use pt_case::{Origin, Stop};
use pt_choice::NoMemory;

/// Why a draw gave no value. What was answered, entered and noted before stays with the case, unless memory ran out.
#[derive(Clone, Copy, Debug, PartialEq, Eq)]
pub enum DrawStop {
    /// The example is none that the property speaks of: a rejection.
    Reject,
    /// The case gives no more, and is stopped from then on.
    Overrun,
    /// The example fails, with this origin.
    Fault(Origin),
    /// Memory ran out. Only dropping the case is of use.
    NoMemory,
}

impl From<NoMemory> for DrawStop {
    ghost use Rattle.std.specs.Prelude.{◌≡◌};
    ghost use Rattle.pt_plan.specs.declared.stop.DrawStop.TheVariants.{NoMemory};

    ghost from_gives = { λ _ stop. stop ≡ NoMemory };

    fn from(_: NoMemory) -> DrawStop {
        DrawStop::NoMemory
    }
}

impl From<Stop> for DrawStop {
    ghost use Rattle.std.specs.Prelude.{◌≡◌};
    ghost use Rattle.pt_plan.specs.Stop.{draw_stop_of};

    ghost from_gives = { λ stop draw_stop. draw_stop ≡ draw_stop_of stop };

    fn from(stop: Stop) -> DrawStop {
        match stop {
            Stop::Overrun => DrawStop::Overrun,
            Stop::NoMemory => DrawStop::NoMemory,
        }
    }
}
