ghost use Rattle.std.specs.Prelude.{◌≡◌, ◌≢◌, ℕ, true, [], ◌∷◌, length, IfOk, OnOk, OnErr};
ghost use Rattle.pt_choice.specs.Kind.{admits, AsksSmall};
ghost use Rattle.pt_case.specs.State.{after_leave};
ghost use Rattle.pt_plan.specs.Plan.{Asks, Enters, Leaves, Notes, Gives};
ghost use Rattle.pt_plan.specs.Halt.{case_halt};
ghost use Rattle.pt_plan.specs.Came.{Drew};
ghost use Rattle.pt_plan.specs.Open.{open_spans};

use pt_case::{Case, Stop};
use pt_choice::{Choice, Kind};
use pt_val::{Name, Val};

/// Asks for a choice of this kind. A boolean and an integer take no memory.
pub fn ask(case: &mut Case, kind: &Kind) -> Result<Choice, Stop>
    ensures drew { Drew case_halt (Asks kind.now (λ choice. Gives choice)) case.old case.new result }
    ensures admitted { IfOk result (λ choice. admits kind.now choice ≡ true) }
    ensures closed { OnOk result (open_spans case.new ≡ open_spans case.old) }
    ensures small { AsksSmall kind.now → result ≢ Err Stop.NoMemory }
{
    case.draw(kind)
}

/// Enters a span of this label, below the innermost open one. It takes no memory.
pub fn enter(case: &mut Case, label: u32) -> Result<(), Stop>
    ensures drew { Drew case_halt (Enters label (Gives tt)) case.old case.new result }
    ensures entered { OnOk result (open_spans case.new ≡ length case.old.regions ∷ open_spans case.old) }
    ensures memory { result ≢ Err Stop.NoMemory }
{
    case.enter(label)
}

/// Leaves the innermost open span, which ends after the last choice. It takes no memory.
pub fn leave(case: &mut Case)
    requires { open_spans case.old ≢ [] }
    ensures left { case.new ≡ after_leave case.old }
    ensures closed { (number : ℕ) × (open_spans case.old ≡ number ∷ open_spans case.new) }
{
    case.leave();
}

/// Shows a value under a name. After a refusal, which is for want of memory, the case is as it was.
pub fn note(case: &mut Case, name: Name, val: Val) -> Result<(), Stop>
    ensures drew { Drew case_halt (Notes (record { name = name; val = val }) (Gives tt)) case.old case.new result }
    ensures closed { OnOk result (open_spans case.new ≡ open_spans case.old) }
    ensures unchanged { OnErr result (case.new ≡ case.old) }
{
    Ok(case.note(name, val)?)
}
