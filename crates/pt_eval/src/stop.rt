ghost use Rattle.std.specs.Prelude.{◌≡◌};
ghost use Rattle.pt_case.specs.declared.ending.Origin.TheVariants.{Suite};

use pt_case::{Origin, What};
use pt_choice::NoMemory;
use pt_val::Place;

/// Why an expression has no value.
#[derive(Clone, Copy, Debug, PartialEq, Eq)]
pub enum EvalStop {
    /// What went wrong, and where.
    Fault(Origin),
    /// Memory ran out.
    NoMemory,
}

impl EvalStop {
    pub(crate) fn fault(what: What, place: Place) -> EvalStop
        ensures { result ≡ EvalStop.Fault (Suite what place) }
    {
        EvalStop::Fault(Origin::Suite { what, place })
    }
}

impl From<NoMemory> for EvalStop {
    ghost use Rattle.std.specs.Prelude.{◌≡◌};
    ghost use Rattle.pt_eval.specs.declared.stop.EvalStop.TheVariants.{NoMemory};

    ghost from_gives = { λ _ stop. stop ≡ NoMemory };

    fn from(_: NoMemory) -> EvalStop {
        EvalStop::NoMemory
    }
}

/// Why a walk over an expression gave no value.
#[derive(Clone, Copy, Debug, PartialEq, Eq)]
pub(crate) enum WalkStop {
    Fault(Origin),
    /// It costs more than may be spent.
    Exceeded,
    NoMemory,
}

impl From<NoMemory> for WalkStop {
    ghost use Rattle.std.specs.Prelude.{◌≡◌};
    ghost use Rattle.pt_eval.specs.declared.stop.WalkStop.TheVariants.{NoMemory};

    ghost from_gives = { λ _ stop. stop ≡ NoMemory };

    fn from(_: NoMemory) -> WalkStop {
        WalkStop::NoMemory
    }
}

impl From<EvalStop> for WalkStop {
    ghost use Rattle.std.specs.Prelude.{◌≡◌};
    ghost use Rattle.pt_eval.specs.Spends.{walk_stop};

    ghost from_gives = { λ why stop. stop ≡ walk_stop why };

    fn from(why: EvalStop) -> WalkStop {
        match why {
            EvalStop::Fault(origin) => WalkStop::Fault(origin),
            EvalStop::NoMemory => WalkStop::NoMemory,
        }
    }
}
