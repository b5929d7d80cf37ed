use pt_case::{Case, Check, Ending};
use pt_choice::NoMemory;
use pt_rules::RuleMachine;
use pt_val::Name;

/// A check that is handed in by code: any one in a box, or a machine of rules, which holds its rules in boxes itself and needs no further one. A tester may put
/// another check of one type in the machine's place.
pub enum Handed<M: Check = RuleMachine> {
    Boxed(Box<dyn Check>),
    Machine(M),
}

impl<M: Check> Drop for Handed<M> {
    fn drop(self) {
        match self {
            Handed::Boxed(_) => {}
            Handed::Machine(_) => {}
        }
    }
}

impl<M: Check> Check for Handed<M> {
    ghost use Rattle.pt_handed.specs.declared.handed.Handed.TheVariants.{Boxed, Machine};

    ghost name = { λ handed. elim handed [
      | Boxed boxed ↦ (Check-box boxed).name boxed.value
      | Machine machine ↦ M.name machine
    ] };

    ghost step = { λ handed. elim handed [
      | Boxed boxed ↦ (Check-box boxed).step boxed.value
      | Machine machine ↦ M.step machine
    ] };

    fn name(&self) -> &Name {
        match self {
            Handed::Boxed(boxed) => boxed.name(),
            Handed::Machine(machine) => machine.name(),
        }
    }

    fn run(&self, case: &mut Case) -> Result<Ending, NoMemory> {
        match self {
            Handed::Boxed(boxed) => boxed.run(case),
            Handed::Machine(machine) => machine.run(case),
        }
    }
}
