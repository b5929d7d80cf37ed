ghost use Rattle.std.specs.Prelude.{◌≡◌, ◌≢◌, ◌+ℤ◌, ◌-ℤ◌, ◌*ℤ◌, neg_ℤ, int_div, pos};
ghost use Rattle.pt_eval.specs.Steps.{applied, in_range};
ghost use Rattle.pt_eval.specs.Evaluates.{Evaluates};

use crate::EvalStop;
use pt_ast::Op;
use pt_case::What;
use pt_val::{Place, Val};

/// What an operator makes of two numbers.
pub(crate) fn apply(op: Op, at: Place, one: i64, other: i64) -> Result<Val, EvalStop>
    ensures { Evaluates (applied op at one other) result }
{
    match op {
        Op::Add => in_range(at, sum(one, other)),
        Op::Sub => in_range(at, difference(one, other)),
        Op::Mul => in_range(at, product(one, other)),
        Op::Div => divide(at, one, other),
        Op::Rem => remain(at, one, other),
    }
}

/// A number with the other sign.
pub(crate) fn negate(at: Place, number: i64) -> Result<Val, EvalStop>
    ensures { Evaluates (in_range at (neg_ℤ number)) result }
{
    in_range(at, negative(number))
}

/// A number where it has 64 bits.
pub(crate) fn in_range(at: Place, number: i128) -> Result<Val, EvalStop>
    ensures { Evaluates (in_range at number) result }
{
    if number < -9_223_372_036_854_775_808 || 9_223_372_036_854_775_807 < number {
        return Err(EvalStop::fault(What::Overflow, at));
    }
    Ok(Val::Int(number as i64))
}

fn divide(at: Place, one: i64, other: i64) -> Result<Val, EvalStop>
    ensures { Evaluates (applied Op.Div at one other) result }
{
    if other == 0 {
        return Err(EvalStop::fault(What::Division, at));
    }
    match one.checked_div(other) {
        Some(quotient) => Ok(Val::Int(quotient)),
        None => Err(EvalStop::fault(What::Overflow, at)),
    }
}

fn remain(at: Place, one: i64, other: i64) -> Result<Val, EvalStop>
    ensures { Evaluates (applied Op.Rem at one other) result }
{
    if other == 0 {
        return Err(EvalStop::fault(What::Division, at));
    }
    match one.checked_rem(other) {
        Some(remainder) => Ok(Val::Int(remainder)),
        None => Err(EvalStop::fault(What::Overflow, at)),
    }
}

pub(crate) fn sum(one: i64, other: i64) -> i128
    ensures { result ≡ one +ℤ other }
{
    i128::from(one) + i128::from(other)
}

fn difference(one: i64, other: i64) -> i128
    ensures { result ≡ one -ℤ other }
{
    i128::from(one) - i128::from(other)
}

fn product(one: i64, other: i64) -> i128
    ensures { result ≡ one *ℤ other }
{
    i128::from(one) * i128::from(other)
}

fn negative(number: i64) -> i128
    ensures { result ≡ neg_ℤ number }
{
    -i128::from(number)
}
