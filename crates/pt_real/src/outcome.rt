ghost use Rattle.std.specs.Prelude.{◌≡◌, ◌≤◌, Ok, IsErr, IfOk, OnOk, OnErr};
ghost use Rattle.pt_choice.specs.Faults.{next_count};

use pt_io::IoFailed;

/// What came of a call of the machine, as a call of ours: the same value, or a fault more.
pub fn counted<T: Drop, E: Drop>(faults: &mut u64, outcome: Result<T, E>) -> Result<T, IoFailed>
    ensures ok { IfOk outcome (λ value. result ≡ Ok value) }
    ensures failed { OnErr outcome (IsErr result) }
    ensures quiet { OnOk result (faults.new ≡ faults.old) }
    ensures cause { OnErr result (faults.new ≡ next_count faults.old) }
    ensures later { faults.old ≤ faults.new }
{
    match outcome {
        Ok(value) => Ok(value),
        Err(_) => {
            *faults = faults.saturating_add(1);
            Err(IoFailed)
        }
    }
}
