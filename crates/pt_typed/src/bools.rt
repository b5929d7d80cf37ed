use crate::{DrawFail, Strategy};
use pt_case::Case;
use pt_plan::{ask_flag, enter, leave};
use std::alloc::Global;

const BOOLS: u32 = 2;

/// The two truth values, one as likely as the other. Reductions go toward false.
#[derive(Clone, Copy, Debug)]
pub struct Bools;

impl Strategy for Bools {
    ghost use Rattle.pt_typed.specs.Plans.{bools_plan};
    ghost use Rattle.pt_typed.specs.Sets.{IsTruth};
    ghost use Rattle.pt_typed.specs.Laws.{bools-lawful};

    type Value = bool;

    ghost plan = { λ _. bools_plan };

    ghost values = { λ _. IsTruth };

    ghost lawful = { λ _. bools-lawful };

    fn draw(&self, _: Global, case: &mut Case) -> Result<bool, DrawFail> {
        enter(case, BOOLS)?;
        let truth = ask_flag(case, 8)?;
        leave(case);
        Ok(truth)
    }
}
