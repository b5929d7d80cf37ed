ghost use Rattle.std.specs.Prelude.{◌≡◌, [], map, OnOk};
ghost use Rattle.pt_ast.specs.Plain.{plain_stmt};
ghost use Rattle.pt_typing.specs.SuiteChecks.{bound, bound_by_all};
ghost use Rattle.pt_check.specs.Known.{with_scope};
ghost use Rattle.pt_check.specs.Says.{Says};

use crate::TypeFault;
use crate::base::Base;
use crate::checker::Checker;
use crate::exprs::{check, check_base, check_needed};
use crate::strats::draw;
use pt_ast::{Stmt, StmtKind};

/// Checks statements one after another. What they bind stays in scope.
pub(crate) fn check_stmts<'a>(stmts: &'a [Stmt], checker: &mut Checker<'a>) -> Result<(), TypeFault>
    requires { checker.old.selves ≡ [] }
    ensures says { Says (bound_by_all checker.old.context checker.old.scope (map plain_stmt stmts.now)) checker.new.scope result }
    ensures same { OnOk result (checker.new ≡ with_scope checker.old checker.new.scope) }
{
    for stmt in stmts {
        check_stmt(stmt, checker)?;
    }
    Ok(())
}

fn check_stmt<'a>(stmt: &'a Stmt, checker: &mut Checker<'a>) -> Result<(), TypeFault>
    requires { checker.old.selves ≡ [] }
    ensures says { Says (bound checker.old.context checker.old.scope (plain_stmt stmt.now)) checker.new.scope result }
    ensures same { OnOk result (checker.new ≡ with_scope checker.old checker.new.scope) }
{
    match &stmt.kind {
        StmtKind::Draw(given, strat) => {
            checker.free(given)?;
            draw(strat, checker)?;
            checker.bind(given)?;
            Ok(())
        }
        StmtKind::Let(given, value) => {
            checker.free(given)?;
            check(value, checker)?;
            checker.bind(given)?;
            Ok(())
        }
        StmtKind::Assume(cond) => check_base(cond, Base::Bool, checker),
        StmtKind::Assert(cond) => check_base(cond, Base::Bool, checker),
        StmtKind::Pick {
            num: _,
            name,
            bundle,
        } => {
            checker.free(name)?;
            checker.hold_bundle(bundle)?;
            checker.bind(name)?;
            Ok(())
        }
        StmtKind::Set(state, value) => {
            checker.hold_state(state)?;
            check_needed(value, checker)?;
            checker.release();
            Ok(())
        }
        StmtKind::Give(value) => {
            checker.hold_target(stmt.at)?;
            check_needed(value, checker)?;
            checker.release();
            Ok(())
        }
    }
}
