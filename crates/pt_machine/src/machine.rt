ghost use Rattle.std.specs.Prelude.{◌≡◌, true, OnOk};
ghost use Rattle.pt_ast.specs.Trees.{Machine_of};
ghost use Rattle.pt_ast.specs.Plain.{plain_body, plain_machine};
ghost use Rattle.pt_plan.specs.Came.{Drew};
ghost use Rattle.pt_plan.specs.Ended.{Settles};
ghost use Rattle.pt_plan.specs.Open.{open_spans};
ghost use Rattle.pt_plan.specs.Stop.{draw_halt};
ghost use Rattle.pt_machine.specs.Machine.{is_machine, steps_plan, machine_plan};

use crate::starting::first_world;
use crate::stepping::turn;
use pt_ast::{Body, Item, Machine};
use pt_case::{Case, Check, Ending};
use pt_choice::NoMemory;
use pt_plan::{DrawStop, ending_of, enter, leave};
use pt_strat::{World, node_label};
use pt_val::Name;
use std::alloc::Global;

/// A machine of a suite as a check. The suite stays where it is, so that workers may share the check.
#[derive(Drop)]
pub struct MachineCheck<'a> {
    name: &'a Name,
    machine: &'a Machine,
    steps: u32,
}

impl<'a> MachineCheck<'a> {
    pub fn of(item: &'a Item) -> MachineCheck<'a>
        requires { is_machine (plain_body item.now.body) ≡ true }
        ensures name { result.name.now ≡ item.now.name.name }
        ensures machine { plain_body item.now.body ≡ Machine_of (plain_machine result.machine.now) }
        ensures steps { result.steps ≡ item.now.settings.steps }
    {
        match &item.body {
            Body::Machine(machine) => MachineCheck {
                name: &item.name.name,
                machine,
                steps: item.settings.steps,
            },
            Body::Check => unreachable!(),
            Body::Property(_) => unreachable!(),
        }
    }
}

impl Check for MachineCheck<'_> {
    ghost use Rattle.pt_ast.specs.Plain.{plain_machine};
    ghost use Rattle.pt_plan.specs.Says.{plan_says};
    ghost use Rattle.pt_machine.specs.Machine.{machine_plan};

    ghost name = { λ check. check.name.now };

    ghost step = { λ check. plan_says (machine_plan (plain_machine check.machine.now) check.steps) };

    fn name(&self) -> &Name {
        self.name
    }

    fn run(&self, case: &mut Case) -> Result<Ending, NoMemory> {
        ending_of(run_machine(self.machine, self.steps, case))
    }
}

// A run in the machine's span, of at most so many steps.
fn run_machine(machine: &Machine, steps: u32, case: &mut Case) -> Result<Ending, DrawStop>
    ensures drew { Drew draw_halt (machine_plan (plain_machine machine.now) steps) case.old case.new result }
    ensures settles { Settles result }
{
    let alloc = machine.rules.allocator();
    enter(case, node_label(machine.num))?;
    let start = first_world(alloc, machine)?;
    let ending = make_steps(alloc, machine, steps, start, case)?;
    leave(case);
    Ok(ending)
}

// At most so many steps, until no rule is enabled or the answer is that there is none.
fn make_steps(
    alloc: Global,
    machine: &Machine,
    steps: u32,
    start: World,
    case: &mut Case,
) -> Result<Ending, DrawStop>
    ensures drew { Drew draw_halt (steps_plan (plain_machine machine.now) steps start) case.old case.new result }
    ensures settles { Settles result }
    ensures closed { OnOk result (open_spans case.new ≡ open_spans case.old) }
{
    let mut world = start;
    'turns: for _turn in 0..steps {
        match turn(alloc, machine, world, case)? {
            Some(next) => world = next,
            None => return Ok(Ending::Pass),
        }
    }
    Ok(Ending::Pass)
}
