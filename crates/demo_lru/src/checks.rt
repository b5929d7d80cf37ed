ghost use Rattle.std.specs.Prelude.{◌≡◌, [], ◌∷◌, map, IfOk};
ghost use Rattle.pt_handed.specs.declared.handed.Handed.TheVariants.{Boxed, Machine};
ghost use Rattle.demo_lru.specs.Cache.{cache_name, cache_says};
ghost use Rattle.demo_lru.specs.Pieces.{append_meaning, clear_meaning, IsPieces};
ghost use Rattle.demo_lru.specs.Hexed.{hex_name, hex_says};
ghost use Rattle.demo_lru.specs.LeapYears.{leap_name, leap_says};
ghost use Rattle.pt_handed.specs.Checks.{IsCheck};

use crate::pieces::pieces_machine;
use pt_case::Check;
use pt_choice::NoMemory;
use pt_handed::Handed;
use pt_rules::Rule;
use std::alloc::Global;

/// The checks of this tester.
pub fn handed(
    alloc: Global,
    cache: Box<dyn Check>,
    append: Box<dyn Rule>,
    clear: Box<dyn Rule>,
    hex_round_trip: Box<dyn Check>,
    leap_years: Box<dyn Check>,
) -> Result<[Handed; 4], NoMemory>
    requires cache { IsCheck (name cache) (step cache) cache_name cache_says }
    requires append { (Rule-box append).meaning append.value ≡ append_meaning }
    requires clear { (Rule-box clear).meaning clear.value ≡ clear_meaning }
    requires hex_round_trip { IsCheck (name hex_round_trip) (step hex_round_trip) hex_name hex_says }
    requires leap_years { IsCheck (name leap_years) (step leap_years) leap_name leap_says }
    ensures { IfOk result (λ checks. (pieces : _) × (checks ≡ Boxed cache ∷ Machine pieces ∷ Boxed hex_round_trip ∷ Boxed leap_years ∷ [])
        × IsPieces pieces.name (map (λ rule. (Rule-box rule).meaning rule.value) pieces.rules.items) pieces.steps pieces.start) }
{
    let pieces = pieces_machine(alloc, append, clear)?;
    Ok([
        Handed::Boxed(cache),
        Handed::Machine(pieces),
        Handed::Boxed(hex_round_trip),
        Handed::Boxed(leap_years),
    ])
}
