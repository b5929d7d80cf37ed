ghost use Rattle.std.specs.Prelude.{◌≡◌, [], ◌∷◌, ◌++◌};
ghost use Rattle.pt_ast.specs.Plain.{plain_expr};
ghost use Rattle.pt_eval.specs.Env.{bound};
ghost use Rattle.pt_eval.specs.Value.{evaluated};
ghost use Rattle.pt_strat.specs.Valued.{Valued};

use pt_ast::Expr;
use pt_eval::{Env, EvalStop, eval};
use pt_plan::DrawStop;
use pt_val::{Name, Val};
use std::alloc::Global;

/// The value of an expression, where a draw needs it.
pub(crate) fn value_of(alloc: Global, e: &Expr, env: &Env) -> Result<Val, DrawStop>
    ensures { Valued (evaluated (plain_expr e.now) env.now) result }
{
    match eval(alloc, e, env) {
        Ok(value) => Ok(value),
        Err(EvalStop::Fault(origin)) => Err(DrawStop::Fault(origin)),
        Err(EvalStop::NoMemory) => Err(DrawStop::NoMemory),
    }
}

/// The value of an expression in which a value has this name besides.
pub(crate) fn value_with(
    alloc: Global,
    e: &Expr,
    name: &Name,
    value: Val,
    env: &mut Env,
) -> Result<Val, DrawStop>
    ensures valued { Valued (evaluated (plain_expr e.now) (env.old ++ bound name.now value ∷ [])) result }
    ensures env { env.new ≡ env.old }
{
    let outer = env.len();
    env.bind(name.copy()?, value)?;
    let outcome = value_of(alloc, e, env);
    env.cut(outer);
    outcome
}
