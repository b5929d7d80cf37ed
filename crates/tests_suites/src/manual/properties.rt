//! The properties and the check of the manual's suite.

ghost use Rattle.std.specs.Prelude.{◌≡◌, IfOk, pos, map, codes, [], ◌∷◌};
ghost use Rattle.pt_ast.specs.Trees.{Num, Ints_of, Blobs_of, Lists_of, Draw_of, Assume_of, Property_of, Check_of};
ghost use Rattle.pt_ast.specs.Plain.{plain_expr, plain_strat, plain_stmt, plain_body, plain_item};
ghost use Rattle.tests_suites.specs.Manual.{place, ident_at, item_at, commutes, commutes_cond, reverses, reverses_cond, joined, joined_cond, whole_length, added_lengths, nonempty, picky, picky_cond, halves, doubled};

use crate::manual::parts::{at, call, compare, ident, num, prod, sum, var};
use crate::manual::stmts::{assert, draw_ints, draw_text, ints};
use pt_ast::{
    Body, CompareOp, Expr, Exprs, Func, Ident, Item, Op, Settings, Stmt, StmtKind, Stmts, Strat,
};
use pt_choice::NoMemory;
use std::alloc::Global;

pub(crate) fn item(line: u32, name: Ident, runs: u32, body: Body) -> Item
    ensures { plain_item result ≡ item_at line name runs (plain_body body) }
{
    Item {
        at: at(line, 1),
        name,
        settings: Settings {
            runs,
            shrink: 500,
            steps: 20,
        },
        body,
    }
}

pub(crate) fn commutes(alloc: Global) -> Result<Item, NoMemory>
    ensures { IfOk result (λ item. plain_item item ≡ item_at 2 (ident_at 2 10 (codes "commutes")) 100 (Property_of commutes)) }
{
    let name = ident(alloc, 2, 10, "commutes")?;
    let mut stmts = Stmts::empty(alloc);
    stmts.push(draw_ints(alloc, 3, (3, 8, 12), "a", 0, (17, -1000), (24, 1000))?)?;
    stmts.push(draw_ints(alloc, 4, (3, 8, 12), "b", 1, (17, -1000), (24, 1000))?)?;
    stmts.push(assert(5, sums_agree(alloc)?))?;
    Ok(item(2, name, 100, Body::Property(stmts)))
}

fn sums_agree(alloc: Global) -> Result<Expr, NoMemory>
    ensures { IfOk result (λ e. plain_expr e ≡ commutes_cond) }
{
    let right = var(alloc, 5, 14, "b")?;
    let left = sum(alloc, 5, 10, var(alloc, 5, 10, "a")?, 12, Op::Add, right)?;
    let other = var(alloc, 5, 23, "a")?;
    let right = sum(alloc, 5, 19, var(alloc, 5, 19, "b")?, 21, Op::Add, other)?;
    compare(alloc, 5, 10, left, CompareOp::Eq, right)
}

pub(crate) fn reverses(alloc: Global) -> Result<Item, NoMemory>
    ensures { IfOk result (λ item. plain_item item ≡ item_at 7 (ident_at 7 10 (codes "reverses")) 100 (Property_of reverses)) }
{
    let name = ident(alloc, 7, 10, "reverses")?;
    let mut stmts = Stmts::empty(alloc);
    stmts.push(drawn_list(alloc)?)?;
    stmts.push(assert(9, twice_reversed(alloc)?))?;
    Ok(item(7, name, 100, Body::Property(stmts)))
}

fn drawn_list(alloc: Global) -> Result<Stmt, NoMemory>
    ensures { IfOk result (λ s. plain_stmt s ≡ Draw_of (place 8 3) (ident_at 8 8 (codes "xs"))
        (Lists_of (place 8 13) 2 (Ints_of (place 8 19) 3 (Num (place 8 24) (pos 0)) (Num (place 8 27) (pos 99))) (Num (place 8 32) (pos 0)) (Num (place 8 35) (pos 20)))) }
{
    let name = ident(alloc, 8, 8, "xs")?;
    let element = Box::new(alloc, ints(8, 19, 3, (24, 0), (27, 99)))?;
    let strat = Strat::lists(at(8, 13), 2, element, num(8, 32, 0), num(8, 35, 20));
    Ok(Stmt {
        at: at(8, 3),
        kind: StmtKind::Draw(name, strat),
    })
}

fn twice_reversed(alloc: Global) -> Result<Expr, NoMemory>
    ensures { IfOk result (λ e. plain_expr e ≡ reverses_cond) }
{
    let once = call(alloc, 9, 14, Func::Rev, var(alloc, 9, 18, "xs")?)?;
    let twice = call(alloc, 9, 10, Func::Rev, once)?;
    compare(alloc, 9, 10, twice, CompareOp::Eq, var(alloc, 9, 26, "xs")?)
}

pub(crate) fn joined(alloc: Global) -> Result<Item, NoMemory>
    ensures { IfOk result (λ item. plain_item item ≡ item_at 11 (ident_at 11 10 (codes "joined")) 100 (Property_of joined)) }
{
    let name = ident(alloc, 11, 10, "joined")?;
    let mut stmts = Stmts::empty(alloc);
    stmts.push(draw_text(alloc, 12, "s", 4)?)?;
    stmts.push(draw_text(alloc, 13, "t", 5)?)?;
    stmts.push(assert(14, lengths_add(alloc)?))?;
    Ok(item(11, name, 100, Body::Property(stmts)))
}

fn lengths_add(alloc: Global) -> Result<Expr, NoMemory>
    ensures { IfOk result (λ e. plain_expr e ≡ joined_cond) }
{
    let whole = whole_length(alloc)?;
    compare(alloc, 14, 10, whole, CompareOp::Eq, added_lengths(alloc)?)
}

fn whole_length(alloc: Global) -> Result<Expr, NoMemory>
    ensures { IfOk result (λ e. plain_expr e ≡ whole_length) }
{
    let mut parts = Exprs::empty(alloc);
    parts.push(var(alloc, 14, 18, "s")?)?;
    parts.push(var(alloc, 14, 21, "t")?)?;
    call(
        alloc,
        14,
        10,
        Func::Len,
        Expr::call(at(14, 14), Func::Cat, parts),
    )
}

fn added_lengths(alloc: Global) -> Result<Expr, NoMemory>
    ensures { IfOk result (λ e. plain_expr e ≡ added_lengths) }
{
    let first = call(alloc, 14, 28, Func::Len, var(alloc, 14, 32, "s")?)?;
    let second = call(alloc, 14, 37, Func::Len, var(alloc, 14, 41, "t")?)?;
    sum(alloc, 14, 28, first, 35, Op::Add, second)
}

pub(crate) fn nonempty(alloc: Global) -> Result<Item, NoMemory>
    ensures { IfOk result (λ item. plain_item item ≡ item_at 16 (ident_at 16 10 (codes "nonempty")) 100 (Property_of nonempty)) }
{
    let name = ident(alloc, 16, 10, "nonempty")?;
    let mut stmts = Stmts::empty(alloc);
    stmts.push(draw_text(alloc, 17, "s", 6)?)?;
    let length = call(alloc, 18, 10, Func::Len, var(alloc, 18, 14, "s")?)?;
    stmts.push(assert(
        18,
        compare(alloc, 18, 10, length, CompareOp::Gt, num(18, 19, 0))?,
    ))?;
    Ok(item(16, name, 100, Body::Property(stmts)))
}

pub(crate) fn picky(alloc: Global) -> Result<Item, NoMemory>
    ensures { IfOk result (λ item. plain_item item ≡ item_at 20 (ident_at 20 10 (codes "picky")) 5 (Property_of picky)) }
{
    let name = ident(alloc, 20, 10, "picky")?;
    let mut stmts = Stmts::empty(alloc);
    stmts.push(drawn_blob(alloc)?)?;
    stmts.push(assumed_length(alloc)?)?;
    Ok(item(20, name, 5, Body::Property(stmts)))
}

fn drawn_blob(alloc: Global) -> Result<Stmt, NoMemory>
    ensures { IfOk result (λ s. plain_stmt s ≡ Draw_of (place 21 3) (ident_at 21 8 (codes "b")) (Blobs_of (place 21 12) 7 (Num (place 21 18) (pos 0)) (Num (place 21 21) (pos 3)))) }
{
    let name = ident(alloc, 21, 8, "b")?;
    let strat = Strat::blobs(at(21, 12), 7, num(21, 18, 0), num(21, 21, 3));
    Ok(Stmt {
        at: at(21, 3),
        kind: StmtKind::Draw(name, strat),
    })
}

fn assumed_length(alloc: Global) -> Result<Stmt, NoMemory>
    ensures { IfOk result (λ s. plain_stmt s ≡ Assume_of (place 22 3) picky_cond) }
{
    let length = call(alloc, 22, 10, Func::Len, var(alloc, 22, 14, "b")?)?;
    let cond = compare(alloc, 22, 10, length, CompareOp::Gt, num(22, 19, 3))?;
    Ok(Stmt {
        at: at(22, 3),
        kind: StmtKind::Assume(cond),
    })
}

pub(crate) fn halves(alloc: Global) -> Result<Item, NoMemory>
    ensures { IfOk result (λ item. plain_item item ≡ item_at 24 (ident_at 24 10 (codes "halves")) 100 (Property_of halves)) }
{
    let name = ident(alloc, 24, 10, "halves")?;
    let mut stmts = Stmts::empty(alloc);
    stmts.push(drawn_double(alloc)?)?;
    let rest = prod(
        alloc,
        26,
        10,
        var(alloc, 26, 10, "n")?,
        12,
        Op::Rem,
        num(26, 14, 2),
    )?;
    stmts.push(assert(
        26,
        compare(alloc, 26, 10, rest, CompareOp::Eq, num(26, 19, 0))?,
    ))?;
    Ok(item(24, name, 100, Body::Property(stmts)))
}

fn drawn_double(alloc: Global) -> Result<Stmt, NoMemory>
    ensures { IfOk result (λ s. plain_stmt s ≡ Draw_of (place 25 3) (ident_at 25 8 (codes "n")) doubled) }
{
    let name = ident(alloc, 25, 8, "n")?;
    let strat = doubled(alloc)?;
    Ok(Stmt {
        at: at(25, 3),
        kind: StmtKind::Draw(name, strat),
    })
}

fn doubled(alloc: Global) -> Result<Strat, NoMemory>
    ensures { IfOk result (λ s. plain_strat s ≡ doubled) }
{
    let given = ident(alloc, 25, 16, "k")?;
    let body = prod(
        alloc,
        25,
        32,
        var(alloc, 25, 32, "k")?,
        34,
        Op::Mul,
        num(25, 36, 2),
    )?;
    let inner = Box::new(alloc, ints(25, 19, 9, (24, 0), (27, 50)))?;
    Ok(Strat::map(at(25, 12), 8, given, inner, body))
}

pub(crate) fn never(alloc: Global) -> Result<Item, NoMemory>
    ensures { IfOk result (λ item. plain_item item ≡ item_at 42 (ident_at 42 7 (codes "never")) 5 Check_of) }
{
    let name = ident(alloc, 42, 7, "never")?;
    Ok(item(42, name, 5, Body::Check))
}
