ghost use Rattle.std.specs.Prelude.{◌≡◌, OnOk};
ghost use Rattle.pt_ast.specs.Types.{Tuple_type};
ghost use Rattle.pt_ast.specs.Trees.{OneOf_of, strat_place_of};
ghost use Rattle.pt_ast.specs.Plain.{plain_expr, plain_strat, plain_strats};
ghost use Rattle.pt_typing.specs.Steps.{made_of};
ghost use Rattle.pt_typing.specs.ExprChecks.{needs};
ghost use Rattle.pt_typing.specs.StratChecks.{once_each, bounds, drawn, all_drawn, each_drawn, repeats};
ghost use Rattle.pt_check.specs.Stacks.{first_of};
ghost use Rattle.pt_check.specs.Known.{top, holding};
ghost use Rattle.pt_check.specs.Says.{Says};

use crate::TypeFault;
use crate::base::Base;
use crate::checker::Checker;
use crate::exprs::{check, check_base};
use crate::functions::make_tuple;
use pt_ast::{Alphabet, Expr, Strat, StratKind};
use pt_val::Place;

/// Holds the type of the values of a strategy.
#[cycle(draw)]
pub(crate) fn draw<'a>(s: &'a Strat, checker: &mut Checker<'a>) -> Result<(), TypeFault>
    ensures says { Says (drawn checker.old.scope (first_of checker.old.selves) (plain_strat s.now)) (top checker.new) result }
    ensures holds { OnOk result (checker.new ≡ holding checker.old (top checker.new)) }
{
    match &s.kind {
        StratKind::Ints(lo, hi) => {
            check_bounds(lo, hi, checker)?;
            checker.hold(Base::Int)?;
            Ok(())
        }
        StratKind::Bools => {
            checker.hold(Base::Bool)?;
            Ok(())
        }
        StratKind::Texts(alphabet, lo, hi) => {
            check_alphabet(alphabet)?;
            check_bounds(lo, hi, checker)?;
            checker.hold(Base::Text)?;
            Ok(())
        }
        StratKind::Blobs(lo, hi) => {
            check_bounds(lo, hi, checker)?;
            checker.hold(Base::Bytes)?;
            Ok(())
        }
        StratKind::SampledFrom(list) => {
            check(list, checker)?;
            checker.take_member(list.at)?;
            Ok(())
        }
        StratKind::Lists(element, lo, hi) => {
            draw(element, checker)?;
            check_bounds(lo, hi, checker)?;
            checker.make_list()?;
            Ok(())
        }
        StratKind::Tuples(parts) => draw_each(parts.as_slice(), checker),
        StratKind::OneOf(parts) => draw_one(s.at, s.num, parts.as_slice(), checker),
        StratKind::Map(given, inner, body) => {
            checker.free(given)?;
            draw(inner, checker)?;
            let outer = checker.names();
            checker.bind(given)?;
            check(body, checker)?;
            checker.cut(outer);
            Ok(())
        }
        StratKind::Filter(given, inner, cond) => {
            checker.free(given)?;
            draw(inner, checker)?;
            checker.hold_again()?;
            let outer = checker.names();
            checker.bind(given)?;
            check_base(cond, Base::Bool, checker)?;
            checker.cut(outer);
            Ok(())
        }
        StratKind::FlatMap(given, inner, second) => {
            checker.free(given)?;
            draw(inner, checker)?;
            let outer = checker.names();
            checker.bind(given)?;
            draw(second, checker)?;
            checker.cut(outer);
            Ok(())
        }
        StratKind::Recursive(_, first, second) => {
            draw(first, checker)?;
            checker.deepen()?;
            draw_needed(second, checker)?;
            checker.rise();
            Ok(())
        }
        StratKind::Again => checker.hold_self(s.at),
    }
}

/// A strategy has to give values of the newest type.
#[cycle(draw)]
fn draw_needed<'a>(s: &'a Strat, checker: &mut Checker<'a>) -> Result<(), TypeFault>
    ensures says { Says (needs (top checker.old) (strat_place_of (plain_strat s.now)) (drawn checker.old.scope (first_of checker.old.selves) (plain_strat s.now))) tt result }
    ensures same { OnOk result (checker.new ≡ checker.old) }
{
    draw(s, checker)?;
    checker.fit(s.at)?;
    Ok(())
}

/// The types of the values of strategies, one by one: holds their tuple's.
#[cycle(draw)]
fn draw_each<'a>(parts: &'a [Strat], checker: &mut Checker<'a>) -> Result<(), TypeFault>
    ensures says { Says (made_of Tuple_type (each_drawn checker.old.scope (first_of checker.old.selves) (plain_strats parts.now))) (top checker.new) result }
    ensures holds { OnOk result (checker.new ≡ holding checker.old (top checker.new)) }
{
    for part in parts {
        draw(part, checker)?;
    }
    make_tuple(parts.len(), checker)?;
    Ok(())
}

/// One of several strategies: the later ones have to give values of the type of the first.
#[cycle(draw)]
fn draw_one<'a>(
    at: Place,
    num: u32,
    parts: &'a [Strat],
    checker: &mut Checker<'a>,
) -> Result<(), TypeFault>
    ensures says { Says (drawn checker.old.scope (first_of checker.old.selves) (OneOf_of at num (plain_strats parts.now))) (top checker.new) result }
    ensures holds { OnOk result (checker.new ≡ holding checker.old (top checker.new)) }
{
    if parts.is_empty() {
        return Err(TypeFault::Wrong(at));
    }
    let first = &parts[0];
    draw(first, checker)?;
    for place in 1..parts.len() {
        draw_needed(&parts[place], checker)?;
    }
    Ok(())
}

/// The least and the greatest have to be integers.
fn check_bounds<'a>(lo: &'a Expr, hi: &'a Expr, checker: &mut Checker<'a>) -> Result<(), TypeFault>
    ensures says { Says (bounds checker.old.scope (plain_expr lo.now) (plain_expr hi.now)) tt result }
    ensures same { OnOk result (checker.new ≡ checker.old) }
{
    check_base(lo, Base::Int, checker)?;
    check_base(hi, Base::Int, checker)?;
    Ok(())
}

/// No character may stand twice in an alphabet.
fn check_alphabet(alphabet: &Alphabet) -> Result<(), TypeFault>
    ensures { Says (once_each alphabet.now) tt result }
{
    if repeats(alphabet.chars.as_slice()) {
        return Err(TypeFault::Twice(alphabet.at));
    }
    Ok(())
}

/// Whether a character stands there twice. An alphabet has at most 256.
fn repeats(chars: &[char]) -> bool
    ensures { result ≡ repeats chars.now }
{
    for place in 0..chars.len() {
        if chars[place + 1..].contains(&chars[place]) {
            return true;
        }
    }
    false
}
