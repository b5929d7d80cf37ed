ghost use Rattle.std.specs.Prelude.{◌≡◌};
ghost use Rattle.pt_case.specs.Ending.{is_pass, is_failure};

use crate::Stop;
use pt_choice::NoMemory;
use pt_val::Place;

/// What went wrong at a place of a suite.
#[derive(Clone, Copy, Debug, PartialEq, Eq)]
pub enum What {
    /// An `assert` was false.
    Assert,
    /// An invariant of a machine was false.
    Invariant,
    /// A number left its range.
    Overflow,
    /// A divisor was zero.
    Division,
    /// There was no member of this number.
    Index,
    /// An expression took too many steps.
    Cost,
    /// The bounds of a strategy contradicted one another.
    Bounds,
}

/// Where a failure comes from. Two failures are alike exactly where their origins are equal.
#[derive(Clone, Copy, Debug, PartialEq, Eq)]
pub enum Origin {
    /// A place of a suite.
    Suite { what: What, place: Place },
    /// A numbered point of a check that is handed in by code.
    Point(u32),
}

/// How a run of a check ended.
#[derive(Clone, Copy, Debug, PartialEq, Eq)]
pub enum Ending {
    /// The example has the property.
    Pass,
    /// The example is none that the property speaks of.
    Reject,
    /// The check wanted more than a case may give.
    Overrun,
    /// The example lacks the property.
    Fail(Origin),
}

impl Ending {
    ghost use Rattle.pt_case.specs.UnderWay.{ending_of};

    /// How a run ended that goes on by `?` until the case gives no more: a check's `run` hands this on.
    pub fn of(outcome: Result<Ending, Stop>) -> Result<Ending, NoMemory>
        ensures { result ≡ ending_of outcome }
    {
        match outcome {
            Ok(ending) => Ok(ending),
            Err(Stop::Overrun) => Ok(Ending::Overrun),
            Err(Stop::NoMemory) => Err(NoMemory),
        }
    }

    pub fn is_pass(self) -> bool
        ensures { result ≡ is_pass self }
    {
        matches!(self, Ending::Pass)
    }

    pub fn is_failure(self) -> bool
        ensures { result ≡ is_failure self }
    {
        matches!(self, Ending::Fail(_))
    }
}
