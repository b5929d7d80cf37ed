use pt_case::Stop;
use pt_choice::NoMemory;
use pt_plan::DrawStop;

/// Why a strategy gave no value. What was answered and entered before stays with the case, unless memory ran out.
#[derive(Clone, Copy, Debug, PartialEq, Eq)]
pub enum DrawFail {
    /// The choices lead to no value, as where a filter failed three times.
    Reject,
    /// The case gives no more, and is stopped from then on.
    Overrun,
    /// Memory ran out. Only dropping the case is of use.
    NoMemory,
}

impl From<NoMemory> for DrawFail {
    ghost use Rattle.std.specs.Prelude.{◌≡◌};
    ghost use Rattle.pt_typed.specs.declared.fail.DrawFail.TheVariants.{NoMemory};

    ghost from_gives = { λ _ fail. fail ≡ NoMemory };

    fn from(_: NoMemory) -> DrawFail {
        DrawFail::NoMemory
    }
}

impl From<Stop> for DrawFail {
    ghost use Rattle.std.specs.Prelude.{◌≡◌};
    ghost use Rattle.pt_typed.specs.Fail.{fail_of};

    ghost from_gives = { λ stop fail. fail ≡ fail_of stop };

    fn from(stop: Stop) -> DrawFail {
        match stop {
            Stop::Overrun => DrawFail::Overrun,
            Stop::NoMemory => DrawFail::NoMemory,
        }
    }
}

impl From<DrawFail> for DrawStop {
    ghost use Rattle.std.specs.Prelude.{◌≡◌};
    ghost use Rattle.pt_typed.specs.Fail.{stop_of};

    ghost from_gives = { λ fail stop. stop ≡ stop_of fail };

    fn from(fail: DrawFail) -> DrawStop {
        match fail {
            DrawFail::Reject => DrawStop::Reject,
            DrawFail::Overrun => DrawStop::Overrun,
            DrawFail::NoMemory => DrawStop::NoMemory,
        }
    }
}
