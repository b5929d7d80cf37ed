ghost use Rattle.pt_ast.specs.Plain.{plain_expr};
ghost use Rattle.pt_eval.specs.Evaluates.{Evaluates};
ghost use Rattle.pt_eval.specs.Value.{evaluated};

use crate::stop::WalkStop;
use crate::walking::walk;
use crate::{Env, EvalStop};
use pt_ast::{Expr, ExprKind};
use pt_case::What;
use pt_val::Val;
use std::alloc::Global;

/// The value of an expression, or the fault that it comes to.
///
/// Operands are evaluated from left to right, and the first fault is answered. Where more than 20,000 were to be
/// spent on the expression, the fault `Cost` at its first token is answered in place of any other.
pub fn eval(alloc: Global, e: &Expr, env: &Env) -> Result<Val, EvalStop>
    ensures { Evaluates (evaluated (plain_expr e.now) env.now) result }
{
    // A number, as most bounds are, costs 2.
    if let ExprKind::Num(number) = &e.kind {
        return Ok(Val::Int(*number));
    }
    let mut locals = Env::empty(alloc);
    let mut left = 20_000;
    match walk(alloc, e, env, &mut locals, &mut left) {
        Ok(value) => Ok(value),
        Err(WalkStop::Fault(origin)) => Err(EvalStop::Fault(origin)),
        Err(WalkStop::Exceeded) => Err(EvalStop::fault(What::Cost, e.at)),
        Err(WalkStop::NoMemory) => Err(EvalStop::NoMemory),
    }
}
