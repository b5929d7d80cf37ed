ghost use Rattle.std.specs.Prelude.{IfOk};
ghost use Rattle.pt_handed.specs.Checks.{IsCheck};
ghost use Rattle.pt_checks.specs.Checks.{sorted_pair_name, sorted_pair_says};

use pt_case::{Check, Ending, Origin};
use pt_choice::NoMemory;
use pt_typed::{Ints, Judge, Pair, Property};
use pt_val::Name;
use std::alloc::Global;

/// Fails at point 1 where the first of two integers exceeds the second.
#[derive(Debug, Drop)]
pub struct InOrder;

impl Judge<(i64, i64)> for InOrder {
    ghost use Rattle.pt_checks.specs.Checks.{in_order};

    ghost verdict = { λ _ pair. in_order pair };

    fn judge(&self, _: Global, pair: &(i64, i64)) -> Result<Ending, NoMemory> {
        if pair.0 > pair.1 {
            return Ok(Ending::Fail(Origin::Point(1)));
        }
        Ok(Ending::Pass)
    }
}

/// The check `sorted_pair`: two integers from 0 to 1,000 are in order.
pub type SortedPair = Property<Pair<Ints, Ints>, InOrder>;

/// The check, under its name.
pub fn sorted_pair(alloc: Global) -> Result<SortedPair, NoMemory>
    ensures { IfOk result (λ check. IsCheck (⟦<SortedPair as Check>⟧.name check) (⟦<SortedPair as Check>⟧.step check) sorted_pair_name sorted_pair_says) }
{
    match Name::of(alloc, "sorted_pair") {
        Ok(name) => Ok(Property::of(
            alloc,
            name,
            Pair::of(Ints::of(0, 1000), Ints::of(0, 1000)),
            InOrder,
        )),
        Err(_) => Err(NoMemory),
    }
}
