ghost use Rattle.std.specs.Prelude.{◌≡◌, [], ◌∷◌, map, option_map, Ok, OnOk};
ghost use Rattle.std.specs.List.{list_any};
ghost use Rattle.std.specs.Option.{option_to_list};
ghost use Rattle.pt_ast.specs.Types.{Tuple_type};
ghost use Rattle.pt_ast.specs.Bounds.{gives};
ghost use Rattle.pt_ast.specs.Plain.{plain_type, plain_types, plain_expr, plain_stmt, plain_state, plain_bundle, plain_invariant, plain_rule, plain_machine};
ghost use Rattle.pt_typing.specs.SuiteChecks.{condition, declared, in_order, each_named, given_into, checked_rule, checked_machine};
ghost use Rattle.pt_check.specs.Known.{nothing, with_scope, with_states, with_target, with_bundles, holding};
ghost use Rattle.pt_check.specs.Says.{Says};

use crate::TypeFault;
use crate::base::Base;
use crate::checker::Checker;
use crate::exprs::{check, check_base};
use crate::functions::make_tuple;
use crate::seen::Seen;
use crate::stmts::check_stmts;
use pt_ast::{BundleDecl, InvariantDecl, Machine, RuleDecl, StateDecl, Stmt, StmtKind};
use pt_choice::NoMemory;
use pt_val::Ty;
use std::alloc::Global;

/// Checks a machine where nothing is known yet.
pub(crate) fn check_machine<'a>(
    alloc: Global,
    machine: &'a Machine,
    checker: &mut Checker<'a>,
) -> Result<(), TypeFault>
    requires { checker.old ≡ nothing }
    ensures { Says (checked_machine (plain_machine machine.now)) tt result }
{
    check_states(machine.states.as_slice(), checker)?;
    check_bundles(machine.bundles.as_slice(), checker)?;
    check_invariants(machine.invariants.as_slice(), checker)?;
    check_rules(alloc, machine.rules.as_slice(), checker)
}

/// The states, each where those before it are in scope.
fn check_states<'a>(states: &'a [StateDecl], checker: &mut Checker<'a>) -> Result<(), TypeFault>
    requires { checker.old.context.states ≡ checker.old.scope }
    ensures says { Says (declared checker.old.scope (map plain_state states.now)) checker.new.scope result }
    ensures same { OnOk result (checker.new ≡ with_states (with_scope checker.old checker.new.scope) checker.new.scope) }
{
    for state in states {
        check_state(state, checker)?;
    }
    Ok(())
}

fn check_state<'a>(state: &'a StateDecl, checker: &mut Checker<'a>) -> Result<(), TypeFault>
    requires { checker.old.context.states ≡ checker.old.scope }
    ensures says { Says (declared checker.old.scope (plain_state state.now ∷ [])) checker.new.scope result }
    ensures same { OnOk result (checker.new ≡ with_states (with_scope checker.old checker.new.scope) checker.new.scope) }
{
    checker.free(&state.name)?;
    check(&state.init, checker)?;
    checker.declare(&state.name)?;
    Ok(())
}

/// The bundles, of which there were none before.
fn check_bundles<'a>(bundles: &'a [BundleDecl], checker: &mut Checker<'a>) -> Result<(), TypeFault>
    requires { checker.old.context.bundles ≡ [] }
    ensures says { Says (each_named (λ bundle. bundle.name) (λ bundle. Ok tt) [] (map plain_bundle bundles.now)) tt result }
    ensures adds { OnOk result (checker.new ≡ with_bundles checker.old (map (λ bundle. (bundle.name.name, bundle.type)) (map plain_bundle bundles.now))) }
{
    for bundle in bundles {
        hold_type(&bundle.ty, checker)?;
        checker.add_bundle(&bundle.name)?;
    }
    Ok(())
}

/// Holds the type.
#[cycle(hold_type)]
fn hold_type(ty: &Ty, checker: &mut Checker) -> Result<(), NoMemory>
    ensures { OnOk result (checker.new ≡ holding checker.old (plain_type ty.now)) }
{
    match ty {
        Ty::Int => checker.hold(Base::Int),
        Ty::Bool => checker.hold(Base::Bool),
        Ty::Text => checker.hold(Base::Text),
        Ty::Bytes => checker.hold(Base::Bytes),
        Ty::Tree => checker.hold(Base::Tree),
        Ty::List(member) => {
            hold_type(member, checker)?;
            checker.make_list()
        }
        Ty::Tuple(types) => hold_types(types.as_slice(), checker),
    }
}

/// Holds the type of tuples of these types.
#[cycle(hold_type)]
fn hold_types(types: &[Ty], checker: &mut Checker) -> Result<(), NoMemory>
    ensures { OnOk result (checker.new ≡ holding checker.old (Tuple_type (plain_types types.now))) }
{
    for ty in types {
        hold_type(ty, checker)?;
    }
    make_tuple(types.len(), checker)
}

fn check_invariants<'a>(
    invariants: &'a [InvariantDecl],
    checker: &mut Checker<'a>,
) -> Result<(), TypeFault>
    ensures says { Says (in_order (λ invariant. condition checker.old.scope invariant.cond) (map plain_invariant invariants.now)) tt result }
    ensures same { OnOk result (checker.new ≡ checker.old) }
{
    for invariant in invariants {
        check_base(&invariant.cond, Base::Bool, checker)?;
    }
    Ok(())
}

/// The rules, where the states alone are in scope.
fn check_rules<'a>(
    alloc: Global,
    rules: &'a [RuleDecl],
    checker: &mut Checker<'a>,
) -> Result<(), TypeFault>
    requires selves { checker.old.selves ≡ [] }
    requires states { checker.old.context.states ≡ checker.old.scope }
    ensures { Says (each_named (λ rule. rule.name) (checked_rule checker.old.scope checker.old.context.bundles) [] (map plain_rule rules.now)) tt result }
{
    let mut seen = Seen::none(alloc);
    for rule in rules {
        seen.note(&rule.name)?;
        check_rule(rule, checker)?;
    }
    Ok(())
}

fn check_rule<'a>(rule: &'a RuleDecl, checker: &mut Checker<'a>) -> Result<(), TypeFault>
    requires selves { checker.old.selves ≡ [] }
    requires states { checker.old.context.states ≡ checker.old.scope }
    ensures says { Says (checked_rule checker.old.scope checker.old.context.bundles (plain_rule rule.now)) tt result }
    ensures same { OnOk result (checker.new ≡ with_target checker.old checker.new.context.target) }
{
    check_when(rule, checker)?;
    let states = checker.names();
    checker.aim(&rule.into)?;
    check_stmts(rule.stmts.as_slice(), checker)?;
    checker.cut(states);
    check_given(rule)?;
    Ok(())
}

/// When a rule may run.
fn check_when<'a>(rule: &'a RuleDecl, checker: &mut Checker<'a>) -> Result<(), TypeFault>
    ensures says { Says (in_order (condition checker.old.scope) (option_to_list (option_map plain_expr rule.now.when))) tt result }
    ensures same { OnOk result (checker.new ≡ checker.old) }
{
    match &rule.when {
        Some(when) => check_base(when, Base::Bool, checker),
        None => Ok(()),
    }
}

/// A rule that names a bundle has to give.
fn check_given(rule: &RuleDecl) -> Result<(), TypeFault>
    ensures { Says (given_into (plain_rule rule.now) rule.now.into) tt result }
{
    match &rule.into {
        Some(bundle) => {
            if gives(rule.stmts.as_slice()) {
                Ok(())
            } else {
                Err(TypeFault::Wrong(bundle.at))
            }
        }
        None => Ok(()),
    }
}

/// Whether one of the statements gives.
fn gives(stmts: &[Stmt]) -> bool
    ensures { result ≡ list_any gives (map plain_stmt stmts.now) }
{
    for stmt in stmts {
        if matches!(stmt.kind, StmtKind::Give(_)) {
            return true;
        }
    }
    false
}
