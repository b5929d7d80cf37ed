//! The manual's suite, built by hand.

mod machine;
mod parts;
mod properties;
mod stmts;

ghost use Rattle.std.specs.Prelude.{◌≡◌, IfOk};
ghost use Rattle.pt_ast.specs.Plain.{plain_suite};
ghost use Rattle.tests_suites.specs.Manual.{manual};

use crate::manual::machine::purse;
use crate::manual::properties::{commutes, halves, joined, never, nonempty, picky, reverses};
use pt_ast::{Items, Suite, Typed};
use pt_choice::NoMemory;
use std::alloc::Global;
use std::test::Fail;

/// The manual's suite, sealed.
fn sealed(alloc: Global) -> Result<Typed, NoMemory>
    ensures { IfOk result (λ typed. plain_suite typed ≡ manual) }
{
    Ok(Typed::seal(suite(alloc)?))
}

fn suite(alloc: Global) -> Result<Suite, NoMemory>
    ensures { IfOk result (λ suite. plain_suite suite ≡ manual) }
{
    let mut items = Items::empty(alloc);
    items.push(commutes(alloc)?)?;
    items.push(reverses(alloc)?)?;
    items.push(joined(alloc)?)?;
    items.push(nonempty(alloc)?)?;
    items.push(picky(alloc)?)?;
    items.push(halves(alloc)?)?;
    items.push(purse(alloc)?)?;
    items.push(never(alloc)?)?;
    Ok(Suite { items })
}

#[test]
fn the_manual_s_suite_is_sealed(rt: HostRuntime) -> Result<(), Fail> {
    let typed = sealed(rt.alloc())?;
    assert_eq!(rt; typed.items().len(), 8);
    Ok(())
}
