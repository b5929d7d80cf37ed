ghost use Rattle.std.specs.Prelude.{◌≡◌, [], ◌∷◌, map, IfOk};
ghost use Rattle.pt_handed.specs.declared.handed.Handed.TheVariants.{Boxed, Machine};
ghost use Rattle.pt_checks.specs.Checks.{
  never_name,
  never_says,
  always_name,
  always_says,
  sorted_pair_name,
  sorted_pair_says,
};
ghost use Rattle.pt_handed.specs.Checks.{IsCheck};
ghost use Rattle.pt_checks.specs.Counter.{IsCounter, add_meaning, reset_meaning};

use crate::counter::counter;
use pt_case::Check;
use pt_choice::NoMemory;
use pt_handed::Handed;
use pt_rules::Rule;
use std::alloc::Global;

/// The checks of the program.
pub fn handed(
    alloc: Global,
    never: Box<dyn Check>,
    always: Box<dyn Check>,
    sorted_pair: Box<dyn Check>,
    add: Box<dyn Rule>,
    reset: Box<dyn Rule>,
) -> Result<[Handed; 4], NoMemory>
    requires never { IsCheck (name never) (step never) never_name never_says }
    requires always { IsCheck (name always) (step always) always_name always_says }
    requires sorted_pair { IsCheck (name sorted_pair) (step sorted_pair) sorted_pair_name sorted_pair_says }
    requires add { (Rule-box add).meaning add.value ≡ add_meaning }
    requires reset { (Rule-box reset).meaning reset.value ≡ reset_meaning }
    ensures { IfOk result (λ checks. (counter : _) × (checks ≡ Boxed never ∷ Boxed always ∷ Boxed sorted_pair ∷ Machine counter ∷ [])
        × IsCounter counter.name (map (λ rule. (Rule-box rule).meaning rule.value) counter.rules.items) counter.steps counter.start) }
{
    let counter = counter(alloc, add, reset)?;
    Ok([
        Handed::Boxed(never),
        Handed::Boxed(always),
        Handed::Boxed(sorted_pair),
        Handed::Machine(counter),
    ])
}
