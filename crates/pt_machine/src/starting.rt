ghost use Rattle.std.specs.Prelude.{◌≡◌, [], map, IfOk};
ghost use Rattle.pt_ast.specs.Plain.{plain_state, plain_bundle, plain_machine};
ghost use Rattle.pt_strat.specs.Valued.{Valued};
ghost use Rattle.pt_machine.specs.World.{states_from, empty_bundle, first_world};

use crate::holding::check_invariants;
use crate::valuing::value_of;
use pt_ast::{BundleDecl, Machine, StateDecl};
use pt_choice::NoMemory;
use pt_eval::Env;
use pt_plan::DrawStop;
use pt_strat::{Bundles, World};
use std::alloc::Global;

/// The world in which a run begins, where the invariants are true in it.
pub(crate) fn first_world(alloc: Global, machine: &Machine) -> Result<World, DrawStop>
    ensures { Valued (first_world (plain_machine machine.now)) result }
{
    let env = first_states(alloc, machine.states.as_slice())?;
    check_invariants(alloc, machine.invariants.as_slice(), &env)?;
    let bundles = empty_bundles(alloc, machine.bundles.as_slice())?;
    Ok(World { env, bundles })
}

fn first_states(alloc: Global, states: &[StateDecl]) -> Result<Env, DrawStop>
    ensures { Valued (states_from (map plain_state states.now) []) result }
{
    let mut env = Env::empty(alloc);
    for state in states {
        let value = value_of(alloc, &state.init, &env)?;
        env.bind(state.name.name.copy()?, value)?;
    }
    Ok(env)
}

fn empty_bundles(alloc: Global, decls: &[BundleDecl]) -> Result<Bundles, NoMemory>
    ensures { IfOk result (λ bundles. bundles ≡ map empty_bundle (map plain_bundle decls.now)) }
{
    let mut bundles = Bundles::empty(alloc);
    for decl in decls {
        bundles.add(alloc, decl.name.name.copy()?)?;
    }
    Ok(bundles)
}
