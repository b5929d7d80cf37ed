ghost use Rattle.std.specs.Prelude.{map};
ghost use Rattle.pt_ast.specs.Plain.{plain_invariant};
ghost use Rattle.pt_strat.specs.Valued.{Valued};
ghost use Rattle.pt_machine.specs.World.{held};

use crate::valuing::value_of;
use pt_ast::InvariantDecl;
use pt_case::{Origin, What};
use pt_eval::{Env, truth};
use pt_plan::DrawStop;
use std::alloc::Global;

/// Goes on where all invariants are true.
pub(crate) fn check_invariants(
    alloc: Global,
    invariants: &[InvariantDecl],
    env: &Env,
) -> Result<(), DrawStop>
    ensures { Valued (held (map plain_invariant invariants.now) env.now) result }
{
    for invariant in invariants {
        let value = value_of(alloc, &invariant.cond, env)?;
        if !truth(&value) {
            return Err(DrawStop::Fault(Origin::Suite {
                what: What::Invariant,
                place: invariant.at,
            }));
        }
    }
    Ok(())
}
