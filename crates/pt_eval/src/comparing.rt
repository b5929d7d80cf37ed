ghost use Rattle.std.specs.Prelude.{◌≡◌};
ghost use Rattle.std.specs.List.{list_any};
ghost use Rattle.pt_eval.specs.Same.{same_value};
ghost use Rattle.pt_eval.specs.Steps.{compared};

use crate::number;
use pt_ast::CompareOp;
use pt_val::{Val, same};

/// Whether two values compare so.
pub(crate) fn compare(op: CompareOp, left: &Val, right: &Val) -> bool
    ensures { result ≡ compared op left.now right.now }
{
    match op {
        CompareOp::Eq => is_same(left, right),
        CompareOp::Ne => !is_same(left, right),
        CompareOp::Lt => number(left) < number(right),
        CompareOp::Le => number(left) <= number(right),
        CompareOp::Gt => number(left) > number(right),
        CompareOp::Ge => number(left) >= number(right),
    }
}

/// Whether the value is among the members.
pub(crate) fn has(members: &[Val], sought: &Val) -> bool
    ensures { result ≡ list_any (λ member. same_value member sought.now) members.now }
{
    members.iter().any(|member| is_same(member, sought))
}

fn is_same(left: &Val, right: &Val) -> bool
    ensures { result ≡ same_value left.now right.now }
{
    same(left, right)
}
