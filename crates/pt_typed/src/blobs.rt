ghost use Rattle.std.specs.Prelude.{◌≡◌, ◌≤◌, OnOk};
ghost use Rattle.pt_choice.specs.declared.kind.Shape.TheVariants as kind;
ghost use Rattle.pt_plan.specs.Came.{Drew};
ghost use Rattle.pt_plan.specs.Halt.{case_halt};
ghost use Rattle.pt_plan.specs.Open.{open_spans};
ghost use Rattle.pt_plan.specs.Plan.{Asks, Gives};
ghost use Rattle.pt_typed.specs.Plans.{bytes_in};

use crate::{DrawFail, Strategy};
use pt_case::{Case, Stop};
use pt_choice::{Choice, Kind, Octets};
use pt_plan::{ask, enter, leave};
use std::alloc::Global;

const BLOBS: u32 = 4;

/// Strings of any bytes, the shortest first. Reductions go toward zero bytes.
#[derive(Clone, Copy, Debug)]
pub struct Blobs {
    min: u8,
    max: u8,
    ghost ordered: { min ≤ max },
    ghost short: { max ≤ 64 },
}

impl Blobs {
    /// Strings of `min` to `max` bytes.
    pub fn of(min: u8, max: u8) -> Blobs
        requires ordered { min ≤ max }
        requires short { max ≤ 64 }
        ensures min { result.min ≡ min }
        ensures max { result.max ≡ max }
    {
        Blobs { min, max }
    }
}

impl Strategy for Blobs {
    ghost use Rattle.pt_typed.specs.Plans.{blobs_plan};
    ghost use Rattle.pt_typed.specs.Sets.{IsBlobOf};
    ghost use Rattle.pt_typed.specs.Laws.{blobs-lawful};

    type Value = Octets;

    ghost plan = { λ blobs. blobs_plan blobs.min blobs.max };

    ghost values = { λ blobs. IsBlobOf blobs.min blobs.max };

    ghost lawful = { λ blobs. blobs-lawful blobs.min blobs.max };

    fn draw(&self, _: Global, case: &mut Case) -> Result<Octets, DrawFail> {
        enter(case, BLOBS)?;
        let bytes = ask_bytes(case, self.min, self.max)?;
        leave(case);
        Ok(bytes)
    }
}

// The bytes that are asked for.
fn ask_bytes(case: &mut Case, min: u8, max: u8) -> Result<Octets, Stop>
    requires ordered { min ≤ max }
    requires short { max ≤ 64 }
    ensures drew { Drew case_halt (Asks (kind.Bytes min max) (λ answer. Gives (bytes_in answer))) case.old case.new result }
    ensures closed { OnOk result (open_spans case.new ≡ open_spans case.old) }
{
    let kind = Kind::of_bytes(min, max).unwrap();
    match ask(case, &kind)? {
        Choice::Bytes(bytes) => Ok(bytes),
        _ => unreachable!(),
    }
}
