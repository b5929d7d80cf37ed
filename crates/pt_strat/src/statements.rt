ghost use Rattle.std.specs.Prelude.{◌≡◌, ◌≢◌, is_some, List, Ok, Err, map, if◌then◌else◌, OnOk, OnErr};
ghost use Rattle.std.specs.List.{All};
ghost use Rattle.pt_ast.specs.Bounds.{IsPlainStmt};
ghost use Rattle.pt_ast.specs.Plain.{plain_stmt};
ghost use Rattle.pt_case.specs.declared.ending.What.TheVariants.{Assert};
ghost use Rattle.pt_case.specs.declared.ending.Origin.TheVariants.{Suite};
ghost use Rattle.pt_plan.specs.Plan.{within};
ghost use Rattle.pt_plan.specs.Came.{Drew};
ghost use Rattle.pt_plan.specs.Stop.{draw_halt};
ghost use Rattle.pt_plan.specs.Open.{open_spans};
ghost use Rattle.pt_strat.specs.declared.bundles.Bundle.{Bundle};
ghost use Rattle.pt_strat.specs.Labels.{node_label};
ghost use Rattle.pt_strat.specs.Parts.{item_plan};
ghost use Rattle.pt_strat.specs.Bundles.{given_into};
ghost use Rattle.pt_strat.specs.Laws.{is_overrun};
ghost use Rattle.pt_strat.specs.Statement.{stmt_plan, body_plan, names_plan, world_of, shown, leaving, Extends};

use crate::choosing::draw_item;
use crate::labels::node_label;
use crate::strategy::draw_outside;
use crate::valuing::value_of;
use crate::{Bundles, World};
use pt_ast::{Ident, Stmt, StmtKind};
use pt_case::{Case, Origin, What};
use pt_choice::NoMemory;
use pt_eval::{Env, truth};
use pt_plan::{DrawStop, enter, leave, note};
use pt_val::{Name, Place, Val};
use std::alloc::Global;

/// Runs the statements of a property in order, among which is no `pick`, `set` or `give`. They bind further names; after a
/// refusal the names are as before.
pub fn run_stmts(
    alloc: Global,
    stmts: &[Stmt],
    env: &mut Env,
    case: &mut Case,
) -> Result<(), DrawStop>
    ensures drew { Drew draw_halt (names_plan (map plain_stmt stmts.now) env.old) case.old case.new (leaving env.new result) }
    ensures closed { OnOk result (open_spans case.new ≡ open_spans case.old) }
    ensures stopped { case.old.refused ≡ None → result ≢ Err DrawStop.NoMemory → is_some case.new.refused ≡ is_overrun result }
    ensures bound { All IsPlainStmt (map plain_stmt stmts.now) → Extends env.old env.new }
    ensures unchanged { All IsPlainStmt (map plain_stmt stmts.now) → OnErr result (env.new ≡ env.old) }
{
    let outer = env.len();
    let mut bundles = Bundles::empty(alloc);
    let outcome = run_body(alloc, &None, stmts, env, &mut bundles, case);
    if outcome.is_err() {
        env.cut(outer);
    }
    outcome
}

/// Runs the statements of a rule in order, which gives into this bundle if into any. What they leave is the names with
/// those that were bound, and the bundles.
pub fn run_rule(
    alloc: Global,
    into: &Option<Ident>,
    stmts: &[Stmt],
    world: World,
    case: &mut Case,
) -> Result<World, DrawStop>
    ensures drew { Drew draw_halt (body_plan into.now (map plain_stmt stmts.now) world) case.old case.new result }
    ensures stopped { case.old.refused ≡ None → result ≢ Err DrawStop.NoMemory → is_some case.new.refused ≡ is_overrun result }
    ensures closed { OnOk result (open_spans case.new ≡ open_spans case.old) }
{
    let mut world = world;
    run_body(alloc, into, stmts, &mut world.env, &mut world.bundles, case)?;
    Ok(world)
}

fn run_body(
    alloc: Global,
    into: &Option<Ident>,
    stmts: &[Stmt],
    env: &mut Env,
    bundles: &mut Bundles,
    case: &mut Case,
) -> Result<(), DrawStop>
    ensures drew { Drew draw_halt (body_plan into.now (map plain_stmt stmts.now) (world_of env.old bundles.old))
        case.old case.new (leaving (world_of env.new bundles.new) result) }
    ensures closed { OnOk result (open_spans case.new ≡ open_spans case.old) }
    ensures kept { All IsPlainStmt (map plain_stmt stmts.now) → Extends env.old env.new }
{
    for stmt in stmts {
        run_stmt(alloc, into, stmt, env, bundles, case)?;
    }
    Ok(())
}

fn run_stmt(
    alloc: Global,
    into: &Option<Ident>,
    stmt: &Stmt,
    env: &mut Env,
    bundles: &mut Bundles,
    case: &mut Case,
) -> Result<(), DrawStop>
    ensures drew { Drew draw_halt (stmt_plan into.now (plain_stmt stmt.now) (world_of env.old bundles.old))
        case.old case.new (leaving (world_of env.new bundles.new) result) }
    ensures closed { OnOk result (open_spans case.new ≡ open_spans case.old) }
    ensures kept { IsPlainStmt (plain_stmt stmt.now) → Extends env.old env.new }
{
    match &stmt.kind {
        StmtKind::Draw(given, strat) => {
            let drawn = draw_outside(alloc, strat, env, case)?;
            show(&given.name, drawn, env, case)
        }
        StmtKind::Let(given, expr) => {
            let value = value_of(alloc, expr, env)?;
            env.bind(given.name.copy()?, value)?;
            Ok(())
        }
        StmtKind::Assume(cond) => {
            let held = value_of(alloc, cond, env)?;
            assume(truth(&held))
        }
        StmtKind::Assert(cond) => {
            let held = value_of(alloc, cond, env)?;
            check(stmt.at, truth(&held))
        }
        StmtKind::Pick { num, name, bundle } => {
            let entry = pick(*num, bundles.entries(&bundle.name), case)?;
            show(&name.name, entry, env, case)
        }
        StmtKind::Set(state, expr) => {
            let value = value_of(alloc, expr, env)?;
            env.set(&state.name, value);
            Ok(())
        }
        StmtKind::Give(expr) => {
            let gift = value_of(alloc, expr, env)?;
            give(into, gift, bundles)?;
            Ok(())
        }
    }
}

// Notes a value and binds it. The names are as before after a refusal.
fn show(name: &Name, value: Val, env: &mut Env, case: &mut Case) -> Result<(), DrawStop>
    ensures drew { (bundles : List Bundle) → Drew draw_halt (shown name.now (world_of env.old bundles) value)
        case.old case.new (leaving (world_of env.new bundles) result) }
    ensures closed { OnOk result (open_spans case.new ≡ open_spans case.old) }
    ensures kept { Extends env.old env.new }
{
    note(case, name.copy()?, value.copy()?)?;
    env.bind(name.copy()?, value)?;
    Ok(())
}

fn assume(holds: bool) -> Result<(), DrawStop>
    ensures { result ≡ (if holds then Ok tt else Err DrawStop.Reject) }
{
    if holds {
        return Ok(());
    }
    Err(DrawStop::Reject)
}

fn check(at: Place, holds: bool) -> Result<(), DrawStop>
    ensures { result ≡ (if holds then Ok tt else Err (DrawStop.Fault (Suite Assert at))) }
{
    if holds {
        return Ok(());
    }
    Err(DrawStop::Fault(Origin::Suite {
        what: What::Assert,
        place: at,
    }))
}

// One of the entries, in a span of its own.
fn pick(num: u32, entries: &[Val], case: &mut Case) -> Result<Val, DrawStop>
    ensures drew { Drew draw_halt (within (node_label num) (item_plan entries.now)) case.old case.new result }
    ensures closed { OnOk result (open_spans case.new ≡ open_spans case.old) }
{
    enter(case, node_label(num))?;
    let entry = draw_item(entries, case)?;
    leave(case);
    Ok(entry)
}

// Puts a value into the bundle that a rule gives into.
fn give(into: &Option<Ident>, value: Val, bundles: &mut Bundles) -> Result<(), NoMemory>
    ensures ok { OnOk result (bundles.new ≡ given_into into.now value bundles.old) }
{
    match into {
        None => Ok(()),
        Some(bundle) => bundles.give(&bundle.name, value),
    }
}
