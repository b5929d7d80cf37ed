ghost use Rattle.std.specs.Prelude.{◌≡◌, map, option_map};
ghost use Rattle.std.specs.Result.{result_map_both};
ghost use Rattle.pt_ast.specs.Plain.{plain_expr, plain_stmt, plain_rule};
ghost use Rattle.pt_strat.specs.Valued.{Valued};
ghost use Rattle.pt_machine.specs.Enabled.{has_entry, can_pick, precondition, is_enabled, enabled_rules};

use crate::valuing::value_of;
use pt_ast::{Expr, RuleDecl, Stmt, StmtKind};
use pt_eval::{Env, truth};
use pt_plan::DrawStop;
use pt_strat::{Bundles, World};
use std::alloc::Global;

/// The rules that are enabled, in the order of the text.
pub(crate) fn enabled_rules<'a>(
    alloc: Global,
    rules: &'a [RuleDecl],
    world: &World,
) -> Result<Vec<&'a RuleDecl>, DrawStop>
    ensures { Valued (enabled_rules (map plain_rule rules.now) world.now)
        (result_map_both (λ found. map (λ rule. plain_rule rule.now) found.items) (λ why. why) result) }
{
    let mut found = Vec::new(alloc);
    for rule in rules {
        let enabled = is_enabled(alloc, rule, world)?;
        if enabled && found.push(rule).is_err() {
            return Err(DrawStop::NoMemory);
        }
    }
    Ok(found)
}

fn is_enabled(alloc: Global, rule: &RuleDecl, world: &World) -> Result<bool, DrawStop>
    ensures { Valued (is_enabled (plain_rule rule.now) world.now) result }
{
    let holds = precondition(alloc, &rule.when, &world.env)?;
    Ok(holds && can_pick(rule.stmts.as_slice(), &world.bundles))
}

fn precondition(alloc: Global, when: &Option<Expr>, env: &Env) -> Result<bool, DrawStop>
    ensures { Valued (precondition (option_map plain_expr when.now) env.now) result }
{
    match when {
        None => Ok(true),
        Some(cond) => {
            let value = value_of(alloc, cond, env)?;
            Ok(truth(&value))
        }
    }
}

fn can_pick(stmts: &[Stmt], bundles: &Bundles) -> bool
    ensures { result ≡ can_pick bundles.now (map plain_stmt stmts.now) }
{
    for stmt in stmts {
        if !has_entry(stmt, bundles) {
            return false;
        }
    }
    true
}

fn has_entry(stmt: &Stmt, bundles: &Bundles) -> bool
    ensures { result ≡ has_entry bundles.now (plain_stmt stmt.now) }
{
    match &stmt.kind {
        StmtKind::Pick {
            num: _,
            name: _,
            bundle,
        } => !bundles.entries(&bundle.name).is_empty(),
        StmtKind::Draw(_, _)
        | StmtKind::Let(_, _)
        | StmtKind::Assume(_)
        | StmtKind::Assert(_)
        | StmtKind::Set(_, _)
        | StmtKind::Give(_) => true,
    }
}
