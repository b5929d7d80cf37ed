ghost use Rattle.std.specs.Prelude.{◌≡◌, ◌≤◌, ◌≤ℤ◌, pos, IfOk};
ghost use Rattle.pt_case.specs.declared.ending.What.TheVariants.{Bounds};
ghost use Rattle.pt_case.specs.declared.ending.Origin.TheVariants.{Suite};
ghost use Rattle.pt_ast.specs.Plain.{plain_expr};
ghost use Rattle.pt_strat.specs.Bounds.{both_of, range_of, lengths_of, in_order, as_lengths};
ghost use Rattle.pt_strat.specs.Valued.{Valued};

use crate::valuing::value_of;
use pt_ast::Expr;
use pt_case::{Origin, What};
use pt_eval::{Env, number};
use pt_plan::DrawStop;
use pt_val::Place;
use std::alloc::Global;

/// Two bounds, which are among the numbers that they bound.
#[derive(Clone, Copy, Debug)]
pub(crate) struct Range {
    pub lo: i64,
    pub hi: i64,
}

/// The least and the greatest length.
#[derive(Clone, Copy, Debug)]
pub(crate) struct Lengths {
    pub least: usize,
    pub most: usize,
}

/// The bounds of integers.
pub(crate) fn range_of(
    alloc: Global,
    at: Place,
    lo: &Expr,
    hi: &Expr,
    env: &Env,
) -> Result<Range, DrawStop>
    ensures valued { Valued (range_of at (plain_expr lo.now) (plain_expr hi.now) env.now) result }
    ensures ordered { IfOk result (λ range. range.lo ≤ℤ range.hi) }
{
    let range = both_of(alloc, lo, hi, env)?;
    in_order(at, range)
}

/// The bounds of lengths, of which the greatest is at most this.
pub(crate) fn lengths_of(
    alloc: Global,
    at: Place,
    most: u16,
    lo: &Expr,
    hi: &Expr,
    env: &Env,
) -> Result<Lengths, DrawStop>
    ensures valued { Valued (lengths_of at most (plain_expr lo.now) (plain_expr hi.now) env.now) result }
    ensures ordered { IfOk result (λ lengths. lengths.least ≤ lengths.most) }
    ensures short { IfOk result (λ lengths. lengths.most ≤ most) }
{
    let range = both_of(alloc, lo, hi, env)?;
    as_lengths(at, most, range)
}

fn both_of(alloc: Global, lo: &Expr, hi: &Expr, env: &Env) -> Result<Range, DrawStop>
    ensures { Valued (both_of (plain_expr lo.now) (plain_expr hi.now) env.now) result }
{
    let lo = value_of(alloc, lo, env)?;
    let hi = value_of(alloc, hi, env)?;
    Ok(Range {
        lo: number(&lo),
        hi: number(&hi),
    })
}

fn in_order(at: Place, range: Range) -> Result<Range, DrawStop>
    ensures valued { Valued (in_order at range) result }
    ensures ordered { IfOk result (λ range. range.lo ≤ℤ range.hi) }
{
    if range.hi < range.lo {
        return Err(bad_bounds(at));
    }
    Ok(range)
}

fn as_lengths(at: Place, most: u16, range: Range) -> Result<Lengths, DrawStop>
    ensures valued { Valued (as_lengths at most range) result }
    ensures ordered { IfOk result (λ lengths. lengths.least ≤ lengths.most) }
    ensures short { IfOk result (λ lengths. lengths.most ≤ most) }
{
    if range.lo < 0 || range.hi < range.lo || i64::from(most) < range.hi {
        return Err(bad_bounds(at));
    }
    Ok(Lengths {
        least: count_of(range.lo),
        most: count_of(range.hi),
    })
}

fn count_of(bound: i64) -> usize
    requires { pos 0 ≤ℤ bound }
    ensures { result ≡ Rattle.pt_strat.specs.Bounds.count_of bound }
{
    bound as usize
}

/// That bounds of the node at this place are bad.
pub(crate) fn bad_bounds(at: Place) -> DrawStop
    ensures { result ≡ DrawStop.Fault (Suite Bounds at) }
{
    DrawStop::Fault(Origin::Suite {
        what: What::Bounds,
        place: at,
    })
}
