ghost use Rattle.pt_ast.specs.Plain.{plain_expr};
ghost use Rattle.pt_eval.specs.Value.{evaluated};
ghost use Rattle.pt_strat.specs.Valued.{Valued};

use pt_ast::Expr;
use pt_eval::{Env, EvalStop, eval};
use pt_plan::DrawStop;
use pt_val::Val;
use std::alloc::Global;

/// The value of an expression, whose fault ends the run.
pub(crate) fn value_of(alloc: Global, expr: &Expr, env: &Env) -> Result<Val, DrawStop>
    ensures { Valued (evaluated (plain_expr expr.now) env.now) result }
{
    match eval(alloc, expr, env) {
        Ok(value) => Ok(value),
        Err(EvalStop::Fault(origin)) => Err(DrawStop::Fault(origin)),
        Err(EvalStop::NoMemory) => Err(DrawStop::NoMemory),
    }
}
