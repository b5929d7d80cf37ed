ghost use Rattle.std.specs.Prelude.{◌≡◌};
ghost use Rattle.pt_ast.specs.Plain.{plain_strat};
ghost use Rattle.pt_strat.specs.Scope.{outside, inside, plain_scope};

use pt_ast::Strat;
use pt_eval::Env;

/// What `self` means: nothing, or the `recursive` in whose last argument it stands, so many levels above
/// its end, with the names that were bound there and with what `self` means there.
#[derive(Drop)]
pub(crate) enum Scope<'a> {
    Outside,
    Inside {
        num: u32,
        depth: u32,
        first: &'a Strat,
        second: &'a Strat,
        env: &'a Env,
        outer: &'a Scope<'a>,
    },
}

/// In no `recursive`.
pub(crate) fn outside<'a>() -> Scope<'a>
    ensures { plain_scope result ≡ outside }
{
    Scope::Outside
}

/// In the last argument of a `recursive`, so many levels above its end.
pub(crate) fn inside<'a>(
    num: u32,
    depth: u32,
    first: &'a Strat,
    second: &'a Strat,
    env: &'a Env,
    outer: &'a Scope<'a>,
) -> Scope<'a>
    ensures { plain_scope result ≡ inside num depth (plain_strat first.now) (plain_strat second.now) env.now (plain_scope outer.now) }
{
    Scope::Inside {
        num,
        depth,
        first,
        second,
        env,
        outer,
    }
}
