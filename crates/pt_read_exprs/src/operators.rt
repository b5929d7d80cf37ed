//! Operators, and what they stand for.

ghost use Rattle.std.specs.Prelude.{◌≡◌, ◌<◌, false, IfSome, length};
ghost use Rattle.std.specs.Option.{MatchOption};
ghost use Rattle.pt_grammar.specs.Reading.{goes_on};
ghost use Rattle.pt_grammar.specs.Tokens.{compare_of, sum_of, product_of};
ghost use Rattle.pt_grammar.specs.ExprReading.{begins_post, is_compare, is_product, is_sum};
ghost use Rattle.pt_taking.specs.Gives.{Operates};

use pt_ast::{CompareOp, Op};
use pt_token::{Kind, Mark, Token};
use pt_val::Place;

/// Whether an index or a part begins there.
pub(crate) fn begins_post(tokens: &[Token]) -> bool
    ensures { result ≡ goes_on begins_post tokens.now }
{
    match tokens.split_first() {
        Some((token, _)) => matches!(token.kind, Kind::Mark(Mark::OpenBracket | Mark::Dot)),
        None => false,
    }
}

/// The comparison that stands there, with its place and what stands behind it.
pub(crate) fn comparison(tokens: &[Token]) -> Option<(Place, CompareOp, &[Token])>
    ensures operator { MatchOption result (goes_on is_compare tokens.now ≡ false) (λ x. Operates compare_of is_compare tokens.now (x.0, x.1) x.2.now) }
    ensures shorter { IfSome result (λ x. length x.2.now < length tokens.now) }
{
    let (token, rest) = tokens.split_first()?;
    match token.kind {
        Kind::Mark(Mark::Compare(op)) => Some((token.at, op, rest)),
        _ => None,
    }
}

/// The operator of sums that stands there, with its place and what stands behind it.
pub(crate) fn sum_operator(tokens: &[Token]) -> Option<(Place, Op, &[Token])>
    ensures operator { MatchOption result (goes_on is_sum tokens.now ≡ false) (λ x. Operates sum_of is_sum tokens.now (x.0, x.1) x.2.now) }
    ensures shorter { IfSome result (λ x. length x.2.now < length tokens.now) }
{
    let (token, rest) = tokens.split_first()?;
    match token.kind {
        Kind::Mark(Mark::Plus) => Some((token.at, Op::Add, rest)),
        Kind::Minus(_) => Some((token.at, Op::Sub, rest)),
        _ => None,
    }
}

/// The operator of products that stands there, with its place and what stands behind it.
pub(crate) fn product_operator(tokens: &[Token]) -> Option<(Place, Op, &[Token])>
    ensures operator { MatchOption result (goes_on is_product tokens.now ≡ false) (λ x. Operates product_of is_product tokens.now (x.0, x.1) x.2.now) }
    ensures shorter { IfSome result (λ x. length x.2.now < length tokens.now) }
{
    let (token, rest) = tokens.split_first()?;
    match token.kind {
        Kind::Mark(Mark::Star) => Some((token.at, Op::Mul, rest)),
        Kind::Mark(Mark::Slash) => Some((token.at, Op::Div, rest)),
        Kind::Mark(Mark::Percent) => Some((token.at, Op::Rem, rest)),
        _ => None,
    }
}
