ghost use Rattle.std.specs.Prelude.{◌≡◌, ◌==◌, IfOk, Err, [], map};
ghost use Rattle.std.specs.Cmp.Lexicographic.{pointwise};
ghost use Rattle.std.specs.List.{list_any};
ghost use Rattle.pt_ast.specs.Plain.{plain_body, plain_item, plain_suite};
ghost use Rattle.pt_ast.specs.Bounds.{IsBounded};
ghost use Rattle.pt_ast.specs.Numbers.{IsNumbered};
ghost use Rattle.pt_ast.specs.Suites.{IsTyped};
ghost use Rattle.pt_typing.specs.SuiteChecks.{each_named, checked_body};
ghost use Rattle.pt_check.specs.declared.fault.TypeFault.{TypeFault};
ghost use Rattle.pt_check.specs.declared.fault.TypeFault.TheVariants.{NoMemory};
ghost use Rattle.pt_check.specs.Answer.{IsAnswer};
ghost use Rattle.pt_check.specs.Says.{Says};

use crate::TypeFault;
use crate::checker::Checker;
use crate::machines::check_machine;
use crate::seen::Seen;
use crate::stmts::check_stmts;
use pt_ast::{Body, Item, Suite, Typed};
use pt_val::{Name, Names};
use std::alloc::Global;

/// Seals a suite that is well typed where these checks are handed in. Of any other it answers the first fault, and the suite
/// is dropped.
///
/// A `check` item needs a check of its own name among those handed in; a property or a machine may bear such a name too.
pub fn check_suite(alloc: Global, suite: Suite, known: &Names) -> Result<Typed, TypeFault>
    requires bounded { IsBounded (plain_suite suite) }
    requires numbered { IsNumbered (plain_suite suite) }
    ensures same { IfOk result (λ typed. typed ≡ suite) }
    ensures answer { IsAnswer known.now (plain_suite suite) result }
    ensures complete { IsTyped known.now (plain_suite suite) → (why : TypeFault) → result ≡ Err why → why ≡ NoMemory }
{
    find_fault(alloc, &suite, known)?;
    Ok(Typed::seal(suite))
}

/// The first fault of a suite, whatever its bounds and its numbers, where these checks are handed in.
pub fn find_fault(alloc: Global, suite: &Suite, known: &Names) -> Result<(), TypeFault>
    ensures answer { IsAnswer known.now (plain_suite suite.now) result }
    ensures complete { IsTyped known.now (plain_suite suite.now) → (why : TypeFault) → result ≡ Err why → why ≡ NoMemory }
{
    check_items(alloc, suite.items.as_slice(), known.as_slice())
}

fn check_items(alloc: Global, items: &[Item], known: &[Name]) -> Result<(), TypeFault>
    ensures { Says (each_named (λ item. item.name) (λ item. checked_body known.now item.name item.body) [] (map plain_item items.now)) tt result }
{
    let mut seen = Seen::none(alloc);
    for item in items {
        seen.note(&item.name)?;
        check_item(alloc, item, known)?;
    }
    Ok(())
}

/// What an item tests.
fn check_item(alloc: Global, item: &Item, known: &[Name]) -> Result<(), TypeFault>
    ensures { Says (checked_body known.now item.now.name (plain_body item.now.body)) tt result }
{
    match &item.body {
        Body::Check => {
            if !is_known(&item.name.name, known) {
                return Err(TypeFault::UnknownCheck(item.name.at));
            }
            Ok(())
        }
        Body::Property(stmts) => {
            let mut checker = Checker::new(alloc)?;
            check_stmts(stmts.as_slice(), &mut checker)
        }
        Body::Machine(machine) => {
            let mut checker = Checker::new(alloc)?;
            check_machine(alloc, machine, &mut checker)
        }
    }
}

/// Whether a check of the name is handed in.
fn is_known(name: &Name, known: &[Name]) -> bool
    ensures { result ≡ list_any (pointwise ◌==◌ name.now) known.now }
{
    for other in known {
        if *name == *other {
            return true;
        }
    }
    false
}
