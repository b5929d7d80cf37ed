ghost use Rattle.std.specs.Prelude.{◌≡◌, true, map};
ghost use Rattle.pt_ast.specs.Trees.{Property_of};
ghost use Rattle.pt_ast.specs.Plain.{plain_stmt, plain_body};
ghost use Rattle.pt_plan.specs.Came.{Drew};
ghost use Rattle.pt_plan.specs.Ended.{Settles};
ghost use Rattle.pt_plan.specs.Stop.{draw_halt};
ghost use Rattle.pt_prop.specs.Property.{is_property, property_plan};

use pt_ast::{Body, Item, Stmts};
use pt_case::{Case, Check, Ending};
use pt_choice::NoMemory;
use pt_eval::Env;
use pt_plan::{DrawStop, ending_of};
use pt_strat::run_stmts;
use pt_val::Name;

/// A property of a suite as a check. The suite stays where it is, so that workers may share the check.
#[derive(Drop)]
pub struct PropertyCheck<'a> {
    name: &'a Name,
    stmts: &'a Stmts,
}

impl<'a> PropertyCheck<'a> {
    /// The check of an item that is a property. It takes no memory, and is used while the item is lent.
    pub fn of(item: &'a Item) -> PropertyCheck<'a>
        requires { is_property (plain_body item.now.body) ≡ true }
        ensures name { result.name.now ≡ item.now.name.name }
        ensures stmts { plain_body item.now.body ≡ Property_of (map plain_stmt result.stmts.now) }
    {
        match &item.body {
            Body::Property(stmts) => PropertyCheck {
                name: &item.name.name,
                stmts,
            },
            Body::Check => unreachable!(),
            Body::Machine(_) => unreachable!(),
        }
    }
}

impl Check for PropertyCheck<'_> {
    ghost use Rattle.std.specs.Prelude.{map};
    ghost use Rattle.pt_ast.specs.Plain.{plain_stmt};
    ghost use Rattle.pt_plan.specs.Says.{plan_says};
    ghost use Rattle.pt_prop.specs.Property.{property_plan};

    ghost name = { λ check. check.name.now };

    ghost step = { λ check. plan_says (property_plan (map plain_stmt check.stmts.now)) };

    fn name(&self) -> &Name {
        self.name
    }

    fn run(&self, case: &mut Case) -> Result<Ending, NoMemory> {
        ending_of(run_body(self.stmts, case))
    }
}

// Runs the statements of a property from no names.
fn run_body(stmts: &Stmts, case: &mut Case) -> Result<Ending, DrawStop>
    ensures drew { Drew draw_halt (property_plan (map plain_stmt stmts.now)) case.old case.new result }
    ensures settles { Settles result }
{
    let alloc = stmts.allocator();
    let mut env = Env::empty(alloc);
    run_stmts(alloc, stmts.as_slice(), &mut env, case)?;
    Ok(Ending::Pass)
}
