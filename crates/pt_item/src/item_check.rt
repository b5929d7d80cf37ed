ghost use Rattle.std.specs.Prelude.{map};
ghost use Rattle.pt_ast.specs.Plain.{plain_item};
ghost use Rattle.pt_item.specs.Item.{IsHandedIn};
ghost use Rattle.pt_item.specs.Check.{IsCheckOf};

use crate::named::check_named;
use pt_ast::{Body, Item};
use pt_case::{Case, Check, Ending};
use pt_choice::NoMemory;
use pt_machine::MachineCheck;
use pt_prop::PropertyCheck;
use pt_val::Name;

/// An item of a suite as a check. The suite and the checks that are handed in stay where they are, so that workers may share it.
#[derive(Drop)]
pub enum ItemCheck<'a, C: Check> {
    Property(PropertyCheck<'a>),
    Machine(MachineCheck<'a>),
    /// One of those that are handed in.
    Handed(&'a C),
}

impl<'a, C: Check> ItemCheck<'a, C> {
    /// The check of an item. It takes no memory, and is used while the item and the checks are lent. Of several checks of the item's
    /// name it may be any.
    pub fn of(item: &'a Item, checks: &'a [C]) -> ItemCheck<'a, C>
        requires { IsHandedIn (map C.name checks.now) (plain_item item.now) }
        ensures { IsCheckOf C.name checks.now (plain_item item.now) result }
    {
        match &item.body {
            Body::Check => ItemCheck::Handed(check_named(&item.name.name, checks)),
            Body::Property(_) => ItemCheck::Property(PropertyCheck::of(item)),
            Body::Machine(_) => ItemCheck::Machine(MachineCheck::of(item)),
        }
    }
}

impl<C: Check> Check for ItemCheck<'_, C> {
    ghost use Rattle.pt_item.specs.Check.{check_name, check_step};

    ghost name = { check_name C.name };

    ghost step = { check_step C.step };

    fn name(&self) -> &Name {
        match self {
            ItemCheck::Property(property) => property.name(),
            ItemCheck::Machine(machine) => machine.name(),
            ItemCheck::Handed(handed) => handed.name(),
        }
    }

    fn run(&self, case: &mut Case) -> Result<Ending, NoMemory> {
        match self {
            ItemCheck::Property(property) => property.run(case),
            ItemCheck::Machine(machine) => machine.run(case),
            ItemCheck::Handed(handed) => handed.run(case),
        }
    }
}
