//! Reading statements. Each is read with the number of its first node, and gives the number of the next.

ghost use Rattle.std.specs.Prelude.{◌≡◌, ◌+◌, ◌<◌, ◌≤◌, ◌^◌, [], length, map, IfOk};
ghost use Rattle.pt_taking.specs.Gives.{Gives};
ghost use Rattle.pt_ast.specs.Plain.{plain_expr, plain_stmt};
ghost use Rattle.pt_ast.specs.Numbers.{stmt_numbers, stmts_numbers};
ghost use Rattle.pt_grammar.specs.Reading.{goes_on};
ghost use Rattle.pt_read_stmts.specs.Statements.{let_at, set_at, assume_at, assert_at};
ghost use Rattle.pt_grammar.specs.SuiteReading.{assigned_at, ended_at, draw_at, pick_at, stmt_at, begins_stmt, stmts_at, is_give, give_at, rule_stmts_at};

use pt_ast::{Expr, Ident, Stmt, StmtKind, Stmts};
use pt_choice::Seq;
use pt_grammar::Sort;
use pt_read_exprs::read_expr;
use pt_read_strats::read_strat;
use pt_taking::{Stop, Terminal, name, one, starts, word};
use pt_token::{Kind, Token, Word};
use pt_val::Place;
use std::alloc::Global;

/// Reads a name and an expression behind it, up to the semicolon.
#[tactic(auto, unfolding(pt_grammar::specs::SuiteReading::assigned_at))]
pub fn read_assigned(
    alloc: Global,
    left: u32,
    tokens: &[Token],
) -> Result<((Ident, Expr), &[Token]), Stop<'_>>
    requires { left ≤ 64 }
    ensures gives { Gives (λ x. ((x.0.0, plain_expr x.0.1), x.1.now)) result (assigned_at left tokens.now) }
    ensures shorter { IfOk result (λ x. length x.1.now < length tokens.now) }
{
    let (given, after) = name(tokens)?;
    let behind = one(Terminal::Assign, after)?;
    let (value, after) = read_expr(alloc, left, behind)?;
    let rest = one(Terminal::Semicolon, after)?;
    Ok(((given, value), rest))
}

/// Reads an expression, up to the semicolon.
#[tactic(auto, unfolding(pt_grammar::specs::SuiteReading::ended_at))]
pub fn read_ended(alloc: Global, left: u32, tokens: &[Token]) -> Result<(Expr, &[Token]), Stop<'_>>
    requires { left ≤ 64 }
    ensures gives { Gives (λ x. (plain_expr x.0, x.1.now)) result (ended_at left tokens.now) }
    ensures shorter { IfOk result (λ x. length x.1.now < length tokens.now) }
{
    let (value, after) = read_expr(alloc, left, tokens)?;
    let rest = one(Terminal::Semicolon, after)?;
    Ok((value, rest))
}

/// Reads what stands behind `draw`.
#[tactic(auto, unfolding(pt_grammar::specs::SuiteReading::draw_at))]
fn read_draw(
    alloc: Global,
    left: u32,
    at: Place,
    from: u32,
    tokens: &[Token],
) -> Result<(Stmt, u32, &[Token]), Stop<'_>>
    requires few { left ≤ 64 }
    requires room { from + length tokens.now ≤ 2 ^ 21 }
    ensures gives { Gives (λ x. (plain_stmt x.0, x.2.now)) result (draw_at left from at tokens.now) }
    ensures next { IfOk result (λ x. x.1 ≡ from + length (stmt_numbers (plain_stmt x.0))) }
    ensures room { IfOk result (λ x. x.1 + length x.2.now ≤ from + length tokens.now) }
{
    let (given, after) = name(tokens)?;
    let behind = one(Terminal::Assign, after)?;
    let (strat, next, after) = read_strat(alloc, left, from, behind)?;
    let rest = one(Terminal::Semicolon, after)?;
    let kind = StmtKind::Draw(given, Box::into_inner(strat));
    Ok((Stmt { at, kind }, next, rest))
}

/// Reads what stands behind `pick`.
#[tactic(auto, unfolding(pt_grammar::specs::SuiteReading::pick_at))]
fn read_pick(at: Place, from: u32, tokens: &[Token]) -> Result<(Stmt, u32, &[Token]), Stop<'_>>
    requires { from + length tokens.now ≤ 2 ^ 21 }
    ensures gives { Gives (λ x. (plain_stmt x.0, x.2.now)) result (pick_at from at tokens.now) }
    ensures next { IfOk result (λ x. x.1 ≡ from + length (stmt_numbers (plain_stmt x.0))) }
    ensures room { IfOk result (λ x. x.1 + length x.2.now ≤ from + length tokens.now) }
{
    let (given, after) = name(tokens)?;
    let behind = one(Terminal::From, after)?;
    let (bundle, after) = name(behind)?;
    let rest = one(Terminal::Semicolon, after)?;
    let kind = StmtKind::Pick {
        num: from,
        name: given,
        bundle,
    };
    Ok((Stmt { at, kind }, from + 1, rest))
}

/// Reads what stands behind `let`.
fn read_let(
    alloc: Global,
    left: u32,
    at: Place,
    from: u32,
    tokens: &[Token],
) -> Result<(Stmt, u32, &[Token]), Stop<'_>>
    requires { left ≤ 64 }
    ensures gives { Gives (λ x. (plain_stmt x.0, x.2.now)) result (let_at left at tokens.now) }
    ensures next { IfOk result (λ x. x.1 ≡ from + length (stmt_numbers (plain_stmt x.0))) }
    ensures room { IfOk result (λ x. x.1 + length x.2.now ≤ from + length tokens.now) }
{
    let ((given, value), rest) = read_assigned(alloc, left, tokens)?;
    let kind = StmtKind::Let(given, value);
    Ok((Stmt { at, kind }, from, rest))
}

/// Reads what stands behind `set`.
fn read_set(
    alloc: Global,
    left: u32,
    at: Place,
    from: u32,
    tokens: &[Token],
) -> Result<(Stmt, u32, &[Token]), Stop<'_>>
    requires { left ≤ 64 }
    ensures gives { Gives (λ x. (plain_stmt x.0, x.2.now)) result (set_at left at tokens.now) }
    ensures next { IfOk result (λ x. x.1 ≡ from + length (stmt_numbers (plain_stmt x.0))) }
    ensures room { IfOk result (λ x. x.1 + length x.2.now ≤ from + length tokens.now) }
{
    let ((given, value), rest) = read_assigned(alloc, left, tokens)?;
    let kind = StmtKind::Set(given, value);
    Ok((Stmt { at, kind }, from, rest))
}

/// Reads what stands behind `assume`.
fn read_assume(
    alloc: Global,
    left: u32,
    at: Place,
    from: u32,
    tokens: &[Token],
) -> Result<(Stmt, u32, &[Token]), Stop<'_>>
    requires { left ≤ 64 }
    ensures gives { Gives (λ x. (plain_stmt x.0, x.2.now)) result (assume_at left at tokens.now) }
    ensures next { IfOk result (λ x. x.1 ≡ from + length (stmt_numbers (plain_stmt x.0))) }
    ensures room { IfOk result (λ x. x.1 + length x.2.now ≤ from + length tokens.now) }
{
    let (cond, rest) = read_ended(alloc, left, tokens)?;
    let kind = StmtKind::Assume(cond);
    Ok((Stmt { at, kind }, from, rest))
}

/// Reads what stands behind `assert`.
fn read_assert(
    alloc: Global,
    left: u32,
    at: Place,
    from: u32,
    tokens: &[Token],
) -> Result<(Stmt, u32, &[Token]), Stop<'_>>
    requires { left ≤ 64 }
    ensures gives { Gives (λ x. (plain_stmt x.0, x.2.now)) result (assert_at left at tokens.now) }
    ensures next { IfOk result (λ x. x.1 ≡ from + length (stmt_numbers (plain_stmt x.0))) }
    ensures room { IfOk result (λ x. x.1 + length x.2.now ≤ from + length tokens.now) }
{
    let (cond, rest) = read_ended(alloc, left, tokens)?;
    let kind = StmtKind::Assert(cond);
    Ok((Stmt { at, kind }, from, rest))
}

/// Reads a statement of a rule or of a property.
#[tactic(auto, unfolding(pt_grammar::specs::SuiteReading::stmt_on))]
fn read_stmt(
    alloc: Global,
    left: u32,
    in_rule: bool,
    from: u32,
    tokens: &[Token],
) -> Result<(Stmt, u32, &[Token]), Stop<'_>>
    requires few { left ≤ 64 }
    requires room { from + length tokens.now ≤ 2 ^ 21 }
    ensures gives { Gives (λ x. (plain_stmt x.0, x.2.now)) result (stmt_at left in_rule from tokens.now) }
    ensures next { IfOk result (λ x. x.1 ≡ from + length (stmt_numbers (plain_stmt x.0))) }
    ensures room { IfOk result (λ x. x.1 + length x.2.now < from + length tokens.now) }
{
    let Some((first, rest)) = tokens.split_first() else {
        return Err(Stop::At(Sort::Syntax, tokens));
    };
    let at = first.at;
    match first.kind {
        Kind::Word(Word::Draw) => read_draw(alloc, left, at, from, rest),
        Kind::Word(Word::Let) => read_let(alloc, left, at, from, rest),
        Kind::Word(Word::Assume) => read_assume(alloc, left, at, from, rest),
        Kind::Word(Word::Assert) => read_assert(alloc, left, at, from, rest),
        Kind::Word(Word::Pick) if in_rule => read_pick(at, from, rest),
        Kind::Word(Word::Set) if in_rule => read_set(alloc, left, at, from, rest),
        _ => Err(Stop::At(Sort::Syntax, tokens)),
    }
}

/// Whether the next token begins a statement.
fn begins_stmt(in_rule: bool, tokens: &[Token]) -> bool
    ensures { result ≡ goes_on (begins_stmt in_rule) tokens.now }
{
    match tokens.split_first() {
        Some((first, _)) => match first.kind {
            Kind::Word(Word::Draw | Word::Let | Word::Assume | Word::Assert) => true,
            Kind::Word(Word::Pick | Word::Set) => in_rule,
            _ => false,
        },
        None => false,
    }
}

/// Reads statements, as many as there are.
pub fn read_stmts(
    alloc: Global,
    left: u32,
    in_rule: bool,
    from: u32,
    tokens: &[Token],
) -> Result<(Stmts, u32, &[Token]), Stop<'_>>
    requires few { left ≤ 64 }
    requires room { from + length tokens.now ≤ 2 ^ 21 }
    ensures gives { Gives (λ x. (map plain_stmt x.0, x.2.now)) result (stmts_at left in_rule from tokens.now) }
    ensures next { IfOk result (λ x. x.1 ≡ from + length (stmts_numbers (map plain_stmt x.0))) }
    ensures room { IfOk result (λ x. x.1 + length x.2.now ≤ from + length tokens.now) }
{
    let mut stmts = Seq::empty(alloc);
    let mut next = from;
    let mut rest = tokens;
    while begins_stmt(in_rule, rest) {
        let (stmt, later, after) = read_stmt(alloc, left, in_rule, next, rest)?;
        stmts.push(stmt)?;
        next = later;
        rest = after;
    }
    Ok((stmts, next, rest))
}

/// Reads a `give`.
#[tactic(auto, unfolding(pt_grammar::specs::SuiteReading::give_at))]
fn read_give(alloc: Global, left: u32, tokens: &[Token]) -> Result<(Stmt, &[Token]), Stop<'_>>
    requires { left ≤ 64 }
    ensures gives { Gives (λ x. (plain_stmt x.0, x.1.now)) result (give_at left tokens.now) }
    ensures none { IfOk result (λ x. stmt_numbers (plain_stmt x.0) ≡ []) }
    ensures shorter { IfOk result (λ x. length x.1.now < length tokens.now) }
{
    let (at, behind) = word(Terminal::Give, tokens)?;
    let (value, rest) = read_ended(alloc, left, behind)?;
    let kind = StmtKind::Give(value);
    Ok((Stmt { at, kind }, rest))
}

/// Reads the statements of a rule, of which `give` is the last.
#[tactic(auto, unfolding(pt_grammar::specs::SuiteReading::rule_stmts_at))]
pub fn read_rule_stmts(
    alloc: Global,
    left: u32,
    from: u32,
    tokens: &[Token],
) -> Result<(Stmts, u32, &[Token]), Stop<'_>>
    requires few { left ≤ 64 }
    requires room { from + length tokens.now ≤ 2 ^ 21 }
    ensures gives { Gives (λ x. (map plain_stmt x.0, x.2.now)) result (rule_stmts_at left from tokens.now) }
    ensures next { IfOk result (λ x. x.1 ≡ from + length (stmts_numbers (map plain_stmt x.0))) }
    ensures room { IfOk result (λ x. x.1 + length x.2.now ≤ from + length tokens.now) }
{
    let (mut stmts, next, after) = read_stmts(alloc, left, true, from, tokens)?;
    if !starts(Terminal::Give, after) {
        return Ok((stmts, next, after));
    }
    let (give, rest) = read_give(alloc, left, after)?;
    stmts.push(give)?;
    Ok((stmts, next, rest))
}
