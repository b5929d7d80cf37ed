ghost use Rattle.std.specs.Prelude.{◌≡◌, ◌↔◌, IsTrue};

use crate::Val;

/// Whether two values are the same value.
#[cycle(same)]
pub fn same(left: &Val, right: &Val) -> bool
    ensures { IsTrue result ↔ (left.now ≡ right.now) }
{
    match (left, right) {
        (Val::Int(left), Val::Int(right)) => left == right,
        (Val::Bool(left), Val::Bool(right)) => left == right,
        (Val::Text(left), Val::Text(right)) => left.as_slice() == right.as_slice(),
        (Val::Bytes(left), Val::Bytes(right)) => left.as_slice() == right.as_slice(),
        (Val::List(left), Val::List(right)) => all_same(left.as_slice(), right.as_slice()),
        (Val::Tuple(left), Val::Tuple(right)) => all_same(left.as_slice(), right.as_slice()),
        (Val::Node(label, left), Val::Node(other, right)) => {
            label == other && all_same(left.as_slice(), right.as_slice())
        }
        _ => false,
    }
}

#[cycle(same)]
fn all_same(left: &[Val], right: &[Val]) -> bool
    ensures { IsTrue result ↔ (left.now ≡ right.now) }
{
    if left.len() != right.len() {
        return false;
    }
    for (one, other) in left.iter().zip(right) {
        if !same(one, other) {
            return false;
        }
    }
    true
}
