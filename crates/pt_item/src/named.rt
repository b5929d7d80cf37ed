ghost use Rattle.std.specs.Prelude.{◌≡◌, ℕ, Some, map, slice_get, Contains};

use pt_case::Check;
use pt_val::Name;

/// A check that has this name.
pub(crate) fn check_named<'a, C: Check>(name: &Name, checks: &'a [C]) -> &'a C
    requires { Contains (map C.name checks.now) name.now }
    ensures named { C.name result.now ≡ name.now }
    ensures among { (place : ℕ) × (slice_get checks.now place ≡ Some result.now) }
{
    for check in checks {
        if *check.name() == *name {
            return check;
        }
    }
    unreachable!()
}
