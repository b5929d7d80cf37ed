//! The machine of the manual's suite.

ghost use Rattle.std.specs.Prelude.{◌≡◌, IfOk, pos, map, codes, [], ◌∷◌};
ghost use Rattle.pt_ast.specs.Trees.{Var, Pick_of, Give_of, Machine_of};
ghost use Rattle.pt_ast.specs.Plain.{plain_expr, plain_stmt, plain_state, plain_bundle, plain_invariant, plain_rule, plain_machine, plain_item};
ghost use Rattle.tests_suites.specs.Manual.{place, ident_at, item_at, paid_coins, pay_rule, refund_when, few_enough, fewer_coins, refunded_coins, refund_rule, purse};

use crate::manual::parts::{at, compare, ident, num, sum, var};
use crate::manual::properties::item;
use crate::manual::stmts::{draw_ints, set_coins};
use pt_ast::{
    Body, BundleDecl, BundleDecls, CompareOp, Expr, InvariantDecl, InvariantDecls, Item, Machine,
    Op, RuleDecl, RuleDecls, StateDecl, StateDecls, Stmt, StmtKind, Stmts,
};
use pt_choice::NoMemory;
use pt_val::Ty;
use std::alloc::Global;

pub(crate) fn purse(alloc: Global) -> Result<Item, NoMemory>
    ensures { IfOk result (λ item. plain_item item ≡ item_at 28 (ident_at 28 9 (codes "purse")) 100 (Machine_of purse)) }
{
    let name = ident(alloc, 28, 9, "purse")?;
    Ok(item(28, name, 100, Body::Machine(machine(alloc)?)))
}

fn machine(alloc: Global) -> Result<Machine, NoMemory>
    ensures { IfOk result (λ machine. plain_machine machine ≡ purse) }
{
    let states = states(alloc)?;
    let bundles = bundles(alloc)?;
    let invariants = invariants(alloc)?;
    Ok(Machine {
        num: 10,
        states,
        bundles,
        invariants,
        rules: rules(alloc)?,
    })
}

fn states(alloc: Global) -> Result<StateDecls, NoMemory>
    ensures { IfOk result (λ states. map plain_state states ≡ purse.states) }
{
    let name = ident(alloc, 29, 9, "coins")?;
    let mut states = StateDecls::empty(alloc);
    states.push(StateDecl {
        at: at(29, 3),
        name,
        init: num(29, 17, 0),
    })?;
    Ok(states)
}

fn bundles(alloc: Global) -> Result<BundleDecls, NoMemory>
    ensures { IfOk result (λ bundles. map plain_bundle bundles ≡ purse.bundles) }
{
    let name = ident(alloc, 30, 10, "paid")?;
    let mut bundles = BundleDecls::empty(alloc);
    bundles.push(BundleDecl {
        at: at(30, 3),
        name,
        ty: Ty::Int,
    })?;
    Ok(bundles)
}

fn invariants(alloc: Global) -> Result<InvariantDecls, NoMemory>
    ensures { IfOk result (λ invariants. map plain_invariant invariants ≡ purse.invariants) }
{
    let coins = var(alloc, 31, 13, "coins")?;
    let cond = compare(alloc, 31, 13, coins, CompareOp::Ge, num(31, 22, 0))?;
    let mut invariants = InvariantDecls::empty(alloc);
    invariants.push(InvariantDecl {
        at: at(31, 3),
        cond,
    })?;
    Ok(invariants)
}

fn rules(alloc: Global) -> Result<RuleDecls, NoMemory>
    ensures { IfOk result (λ rules. map plain_rule rules ≡ pay_rule ∷ refund_rule ∷ []) }
{
    let mut rules = RuleDecls::empty(alloc);
    rules.push(pay(alloc)?)?;
    rules.push(refund(alloc)?)?;
    Ok(rules)
}

fn pay(alloc: Global) -> Result<RuleDecl, NoMemory>
    ensures { IfOk result (λ rule. plain_rule rule ≡ pay_rule) }
{
    let name = ident(alloc, 32, 8, "pay")?;
    let into = ident(alloc, 32, 17, "paid")?;
    Ok(RuleDecl {
        at: at(32, 3),
        name,
        when: None,
        into: Some(into),
        stmts: payment(alloc)?,
    })
}

fn payment(alloc: Global) -> Result<Stmts, NoMemory>
    ensures { IfOk result (λ stmts. map plain_stmt stmts ≡ pay_rule.stmts) }
{
    let mut stmts = Stmts::empty(alloc);
    stmts.push(draw_ints(alloc, 33, (5, 10, 14), "n", 11, (19, 1), (22, 9))?)?;
    stmts.push(set_coins(alloc, 34, more_coins(alloc)?)?)?;
    stmts.push(given(alloc)?)?;
    Ok(stmts)
}

fn more_coins(alloc: Global) -> Result<Expr, NoMemory>
    ensures { IfOk result (λ e. plain_expr e ≡ paid_coins) }
{
    let coins = var(alloc, 34, 17, "coins")?;
    sum(alloc, 34, 17, coins, 23, Op::Add, var(alloc, 34, 25, "n")?)
}

fn given(alloc: Global) -> Result<Stmt, NoMemory>
    ensures { IfOk result (λ s. plain_stmt s ≡ Give_of (place 35 5) (Var (place 35 10) (codes "n"))) }
{
    let value = var(alloc, 35, 10, "n")?;
    Ok(Stmt {
        at: at(35, 5),
        kind: StmtKind::Give(value),
    })
}

fn refund(alloc: Global) -> Result<RuleDecl, NoMemory>
    ensures { IfOk result (λ rule. plain_rule rule ≡ refund_rule) }
{
    let name = ident(alloc, 37, 8, "refund")?;
    let stmts = refunding(alloc)?;
    Ok(RuleDecl {
        at: at(37, 3),
        name,
        when: Some(any_coins(alloc)?),
        into: None,
        stmts,
    })
}

fn any_coins(alloc: Global) -> Result<Expr, NoMemory>
    ensures { IfOk result (λ e. plain_expr e ≡ refund_when) }
{
    let coins = var(alloc, 37, 20, "coins")?;
    compare(alloc, 37, 20, coins, CompareOp::Gt, num(37, 28, 0))
}

fn refunding(alloc: Global) -> Result<Stmts, NoMemory>
    ensures { IfOk result (λ stmts. map plain_stmt stmts ≡ refund_rule.stmts) }
{
    let mut stmts = Stmts::empty(alloc);
    stmts.push(picked(alloc)?)?;
    stmts.push(set_coins(alloc, 39, coins_left(alloc)?)?)?;
    Ok(stmts)
}

fn picked(alloc: Global) -> Result<Stmt, NoMemory>
    ensures { IfOk result (λ s. plain_stmt s ≡ Pick_of (place 38 5) 12 (ident_at 38 10 (codes "n")) (ident_at 38 17 (codes "paid"))) }
{
    let name = ident(alloc, 38, 10, "n")?;
    let bundle = ident(alloc, 38, 17, "paid")?;
    Ok(Stmt {
        at: at(38, 5),
        kind: StmtKind::Pick {
            num: 12,
            name,
            bundle,
        },
    })
}

fn coins_left(alloc: Global) -> Result<Expr, NoMemory>
    ensures { IfOk result (λ e. plain_expr e ≡ refunded_coins) }
{
    let test = Box::new(alloc, few_enough(alloc)?)?;
    let fewer = Box::new(alloc, fewer_coins(alloc)?)?;
    let same = Box::new(alloc, var(alloc, 39, 51, "coins")?)?;
    Ok(Expr::if_else(at(39, 17), test, fewer, same))
}

fn few_enough(alloc: Global) -> Result<Expr, NoMemory>
    ensures { IfOk result (λ e. plain_expr e ≡ few_enough) }
{
    let n = var(alloc, 39, 20, "n")?;
    compare(
        alloc,
        39,
        20,
        n,
        CompareOp::Le,
        var(alloc, 39, 25, "coins")?,
    )
}

fn fewer_coins(alloc: Global) -> Result<Expr, NoMemory>
    ensures { IfOk result (λ e. plain_expr e ≡ fewer_coins) }
{
    let coins = var(alloc, 39, 36, "coins")?;
    sum(alloc, 39, 36, coins, 42, Op::Sub, var(alloc, 39, 44, "n")?)
}
