//! Reading machines: their states, bundles, invariants and rules, of each of which there are 64 at most.

ghost use Rattle.std.specs.Prelude.{◌≡◌, ◌+◌, ◌-◌, ◌<◌, ◌≤◌, ◌^◌, ◌∷◌, Ok, length, map, option_map, IfOk};
ghost use Rattle.pt_taking.specs.Gives.{Gives};
ghost use Rattle.pt_ast.specs.Plain.{plain_expr, plain_state, plain_bundle, plain_invariant, plain_rule, plain_machine};
ghost use Rattle.pt_ast.specs.Numbers.{stmts_numbers, body_numbers};
ghost use Rattle.pt_ast.specs.Trees.{Machine_of};
ghost use Rattle.pt_grammar.specs.SuiteReading.{is_state, is_bundle, is_invariant, is_rule, is_when, is_into, state_at, bundle_at, invariant_at, when_at, into_at, rule_at, declared_at, rules_at, machine_at};
ghost use Rattle.pt_grammar.specs.Reading.{maybe_at};
ghost use Rattle.std.specs.List.{flat_map};

use pt_ast::{
    BundleDecl, BundleDecls, Expr, Ident, InvariantDecl, InvariantDecls, Machine, RuleDecl,
    RuleDecls, StateDecl, StateDecls,
};
use pt_choice::Seq;
use pt_grammar::Sort;
use pt_read_exprs::read_expr;
use pt_read_stmts::{read_assigned, read_ended, read_rule_stmts};
use pt_taking::{Stop, Terminal, name, one, open, read_type, starts, word};
use pt_token::Token;
use std::alloc::Global;

/// The most states of a machine, and the most bundles, invariants and rules.
const MOST: usize = 64;

/// Reads a state.
#[tactic(auto, unfolding(pt_grammar::specs::SuiteReading::state_at))]
fn read_state(alloc: Global, left: u32, tokens: &[Token]) -> Result<(StateDecl, &[Token]), Stop<'_>>
    requires { left ≤ 64 }
    ensures gives { Gives (λ x. (plain_state x.0, x.1.now)) result (state_at left tokens.now) }
    ensures shorter { IfOk result (λ x. length x.1.now < length tokens.now) }
{
    let (at, behind) = word(Terminal::State, tokens)?;
    let ((given, init), rest) = read_assigned(alloc, left, behind)?;
    Ok((
        StateDecl {
            at,
            name: given,
            init,
        },
        rest,
    ))
}

/// Reads a bundle.
#[tactic(auto, unfolding(pt_grammar::specs::SuiteReading::bundle_at))]
fn read_bundle(
    alloc: Global,
    left: u32,
    tokens: &[Token],
) -> Result<(BundleDecl, &[Token]), Stop<'_>>
    requires { left ≤ 64 }
    ensures gives { Gives (λ x. (plain_bundle x.0, x.1.now)) result (bundle_at left tokens.now) }
    ensures shorter { IfOk result (λ x. length x.1.now < length tokens.now) }
{
    let (at, behind) = word(Terminal::Bundle, tokens)?;
    let (given, after) = name(behind)?;
    let behind = one(Terminal::Colon, after)?;
    let (ty, after) = read_type(alloc, left, behind)?;
    let rest = one(Terminal::Semicolon, after)?;
    Ok((
        BundleDecl {
            at,
            name: given,
            ty,
        },
        rest,
    ))
}

/// Reads an invariant.
#[tactic(auto, unfolding(pt_grammar::specs::SuiteReading::invariant_at))]
fn read_invariant(
    alloc: Global,
    left: u32,
    tokens: &[Token],
) -> Result<(InvariantDecl, &[Token]), Stop<'_>>
    requires { left ≤ 64 }
    ensures gives { Gives (λ x. (plain_invariant x.0, x.1.now)) result (invariant_at left tokens.now) }
    ensures shorter { IfOk result (λ x. length x.1.now < length tokens.now) }
{
    let (at, behind) = word(Terminal::Invariant, tokens)?;
    let (cond, rest) = read_ended(alloc, left, behind)?;
    Ok((InvariantDecl { at, cond }, rest))
}

/// Reads when a rule may run, if it says so.
fn read_when(
    alloc: Global,
    left: u32,
    tokens: &[Token],
) -> Result<(Option<Expr>, &[Token]), Stop<'_>>
    requires { left ≤ 64 }
    ensures gives { Gives (λ x. (option_map plain_expr x.0, x.1.now)) result (maybe_at (when_at left) is_when tokens.now) }
    ensures shorter { IfOk result (λ x. length x.1.now ≤ length tokens.now) }
{
    if !starts(Terminal::When, tokens) {
        return Ok((None, tokens));
    }
    let (_, behind) = word(Terminal::When, tokens)?;
    let (cond, rest) = read_expr(alloc, left, behind)?;
    Ok((Some(cond), rest))
}

/// Reads the bundle that a rule gives into, if there is one.
fn read_into(tokens: &[Token]) -> Result<(Option<Ident>, &[Token]), Stop<'_>>
    ensures gives { Gives (λ x. (x.0, x.1.now)) result (maybe_at into_at is_into tokens.now) }
    ensures shorter { IfOk result (λ x. length x.1.now ≤ length tokens.now) }
{
    if !starts(Terminal::Into, tokens) {
        return Ok((None, tokens));
    }
    let (_, behind) = word(Terminal::Into, tokens)?;
    let (bundle, rest) = name(behind)?;
    Ok((Some(bundle), rest))
}

/// Reads a rule, whose nodes are numbered from there on.
#[tactic(auto, unfolding(pt_grammar::specs::SuiteReading::rule_at))]
fn read_rule(
    alloc: Global,
    left: u32,
    from: u32,
    tokens: &[Token],
) -> Result<(RuleDecl, u32, &[Token]), Stop<'_>>
    requires few { left ≤ 64 }
    requires room { from + length tokens.now ≤ 2 ^ 21 }
    ensures gives { Gives (λ x. (plain_rule x.0, x.2.now)) result (rule_at left from tokens.now) }
    ensures next { IfOk result (λ x. x.1 ≡ from + length (stmts_numbers (plain_rule x.0).stmts)) }
    ensures room { IfOk result (λ x. x.1 + length x.2.now ≤ from + length tokens.now) }
    ensures shorter { IfOk result (λ x. length x.2.now < length tokens.now) }
{
    let (at, behind) = word(Terminal::Rule, tokens)?;
    let (given, after) = name(behind)?;
    let (when, after) = read_when(alloc, left, after)?;
    let (into, after) = read_into(after)?;
    let inside = open(Terminal::OpenBrace, left, after)?;
    let (stmts, next, after) = read_rule_stmts(alloc, left - 1, from, inside)?;
    let rest = one(Terminal::CloseBrace, after)?;
    let rule = RuleDecl {
        at,
        name: given,
        when,
        into,
        stmts,
    };
    Ok((rule, next, rest))
}

/// Reads states, as many as there are.
fn read_states(
    alloc: Global,
    left: u32,
    tokens: &[Token],
) -> Result<(StateDecls, &[Token]), Stop<'_>>
    requires { left ≤ 64 }
    ensures gives { Gives (λ x. (map plain_state x.0, x.1.now)) result (declared_at (state_at left) is_state tokens.now) }
    ensures shorter { IfOk result (λ x. length x.1.now ≤ length tokens.now) }
{
    let mut states = Seq::empty(alloc);
    let mut rest = tokens;
    while starts(Terminal::State, rest) {
        if states.len() == MOST {
            return Err(Stop::At(Sort::OutOfRange, rest));
        }
        let (state, after) = read_state(alloc, left, rest)?;
        states.push(state)?;
        rest = after;
    }
    Ok((states, rest))
}

/// Reads bundles, as many as there are.
fn read_bundles(
    alloc: Global,
    left: u32,
    tokens: &[Token],
) -> Result<(BundleDecls, &[Token]), Stop<'_>>
    requires { left ≤ 64 }
    ensures gives { Gives (λ x. (map plain_bundle x.0, x.1.now)) result (declared_at (bundle_at left) is_bundle tokens.now) }
    ensures shorter { IfOk result (λ x. length x.1.now ≤ length tokens.now) }
{
    let mut bundles = Seq::empty(alloc);
    let mut rest = tokens;
    while starts(Terminal::Bundle, rest) {
        if bundles.len() == MOST {
            return Err(Stop::At(Sort::OutOfRange, rest));
        }
        let (bundle, after) = read_bundle(alloc, left, rest)?;
        bundles.push(bundle)?;
        rest = after;
    }
    Ok((bundles, rest))
}

/// Reads invariants, as many as there are.
fn read_invariants(
    alloc: Global,
    left: u32,
    tokens: &[Token],
) -> Result<(InvariantDecls, &[Token]), Stop<'_>>
    requires { left ≤ 64 }
    ensures gives { Gives (λ x. (map plain_invariant x.0, x.1.now)) result (declared_at (invariant_at left) is_invariant tokens.now) }
    ensures shorter { IfOk result (λ x. length x.1.now ≤ length tokens.now) }
{
    let mut invariants = Seq::empty(alloc);
    let mut rest = tokens;
    while starts(Terminal::Invariant, rest) {
        if invariants.len() == MOST {
            return Err(Stop::At(Sort::OutOfRange, rest));
        }
        let (invariant, after) = read_invariant(alloc, left, rest)?;
        invariants.push(invariant)?;
        rest = after;
    }
    Ok((invariants, rest))
}

/// Reads rules, as many as there are, whose nodes are numbered from there on.
fn read_rules(
    alloc: Global,
    left: u32,
    from: u32,
    tokens: &[Token],
) -> Result<(RuleDecls, u32, &[Token]), Stop<'_>>
    requires few { left ≤ 64 }
    requires room { from + length tokens.now ≤ 2 ^ 21 }
    ensures gives { Gives (λ x. (map plain_rule x.0, x.2.now)) result (rules_at left from tokens.now) }
    ensures next { IfOk result (λ x. x.1 ≡ from + length (flat_map (λ rule. stmts_numbers rule.stmts) (map plain_rule x.0))) }
    ensures room { IfOk result (λ x. x.1 + length x.2.now ≤ from + length tokens.now) }
{
    let mut rules = Seq::empty(alloc);
    let mut next = from;
    let mut rest = tokens;
    while starts(Terminal::Rule, rest) {
        if rules.len() == MOST {
            return Err(Stop::At(Sort::OutOfRange, rest));
        }
        let (rule, later, after) = read_rule(alloc, left, next, rest)?;
        rules.push(rule)?;
        next = later;
        rest = after;
    }
    Ok((rules, next, rest))
}

/// Reads a machine between braces, whose nodes are numbered from there on.
#[tactic(auto, unfolding(pt_grammar::specs::SuiteReading::machine_at))]
pub(crate) fn read_machine(
    alloc: Global,
    left: u32,
    from: u32,
    tokens: &[Token],
) -> Result<(Machine, u32, &[Token]), Stop<'_>>
    requires few { left ≤ 64 }
    requires room { from + length tokens.now ≤ 2 ^ 21 }
    ensures gives { Gives (λ x. (plain_machine x.0, x.2.now)) result (machine_at left from tokens.now) }
    ensures next { IfOk result (λ x. x.1 ≡ from + length (body_numbers (Machine_of (plain_machine x.0)))) }
    ensures room { IfOk result (λ x. x.1 + length x.2.now ≤ from + length tokens.now) }
{
    let inside = open(Terminal::OpenBrace, left, tokens)?;
    let (states, after) = read_states(alloc, left - 1, inside)?;
    let (bundles, after) = read_bundles(alloc, left - 1, after)?;
    let (invariants, after) = read_invariants(alloc, left - 1, after)?;
    let (rules, next, after) = read_rules(alloc, left - 1, from + 1, after)?;
    let rest = one(Terminal::CloseBrace, after)?;
    let machine = Machine {
        num: from,
        states,
        bundles,
        invariants,
        rules,
    };
    Ok((machine, next, rest))
}
