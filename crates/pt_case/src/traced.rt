ghost use Rattle.std.specs.Prelude.{◌≡◌, [], IfOk};
ghost use Rattle.pt_case.specs.Source.{Guided};
ghost use Rattle.pt_case.specs.Step.{IsAsked};
ghost use Rattle.pt_case.specs.Run.{IsRecordOver};

use crate::{Case, Check, Kinds, Record};
use pt_choice::{Choices, NoMemory};
use pt_rng::Supply;
use std::alloc::Global;

/// A record, and the kinds of the questions that its choices answer, in order.
#[derive(Debug, Drop)]
pub struct Traced {
    pub rec: Record,
    pub kinds: Kinds,
}

/// The record of a run that is guided: its first questions are answered by the list, as in a replay, and all others
/// by the supply. With it come the kinds that were asked for, so that no further run is needed to learn them.
pub fn guided<C: Check>(
    alloc: Global,
    check: &C,
    list: &Choices,
    supply: Supply,
) -> Result<Traced, NoMemory>
    ensures recorded { IfOk result (λ traced. IsRecordOver (C.step check.now) (Guided list.now supply []) traced.rec) }
    ensures kinds { IfOk result (λ traced. IsAsked (C.step check.now) traced.rec.choices traced.kinds) }
{
    let mut case = Case::guided(alloc, list, supply)?;
    let ending = check.run(&mut case)?;
    let kinds = Kinds::of(alloc, case.kept_kinds())?;
    Ok(Traced {
        rec: case.finish(ending),
        kinds,
    })
}
