//! Expressions that are one token.

ghost use Rattle.std.specs.Prelude.{◌<◌, IfOk, length};
ghost use Rattle.pt_ast.specs.Plain.{plain_expr};
ghost use Rattle.pt_grammar.specs.ExprReading.{number_at, text_at, bytes_at, var_at};
ghost use Rattle.pt_taking.specs.Gives.{Gives};

use pt_ast::Expr;
use pt_taking::{Stop, bytes, name, number, text};
use pt_token::Token;

#[tactic(auto, unfolding(pt_grammar::specs::ExprReading::number_at))]
pub(crate) fn read_number(tokens: &[Token]) -> Result<(Expr, &[Token]), Stop<'_>>
    ensures gives { Gives (λ x. (plain_expr x.0, x.1.now)) result (number_at tokens.now) }
    ensures shorter { IfOk result (λ x. length x.1.now < length tokens.now) }
{
    let ((at, value), rest) = number(tokens)?;
    Ok((Expr::num(at, value), rest))
}

#[tactic(auto, unfolding(pt_grammar::specs::ExprReading::text_at))]
pub(crate) fn read_text(tokens: &[Token]) -> Result<(Expr, &[Token]), Stop<'_>>
    ensures gives { Gives (λ x. (plain_expr x.0, x.1.now)) result (text_at tokens.now) }
    ensures shorter { IfOk result (λ x. length x.1.now < length tokens.now) }
{
    let ((at, chars), rest) = text(tokens)?;
    Ok((Expr::text(at, chars), rest))
}

#[tactic(auto, unfolding(pt_grammar::specs::ExprReading::bytes_at))]
pub(crate) fn read_bytes(tokens: &[Token]) -> Result<(Expr, &[Token]), Stop<'_>>
    ensures gives { Gives (λ x. (plain_expr x.0, x.1.now)) result (bytes_at tokens.now) }
    ensures shorter { IfOk result (λ x. length x.1.now < length tokens.now) }
{
    let ((at, octets), rest) = bytes(tokens)?;
    Ok((Expr::bytes(at, octets), rest))
}

#[tactic(auto, unfolding(pt_grammar::specs::ExprReading::var_at))]
pub(crate) fn read_name(tokens: &[Token]) -> Result<(Expr, &[Token]), Stop<'_>>
    ensures gives { Gives (λ x. (plain_expr x.0, x.1.now)) result (var_at tokens.now) }
    ensures shorter { IfOk result (λ x. length x.1.now < length tokens.now) }
{
    let (ident, rest) = name(tokens)?;
    Ok((Expr::var(ident.at, ident.name), rest))
}
