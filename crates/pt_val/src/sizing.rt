ghost use Rattle.std.specs.Prelude.{◌≡◌, min, sum_by};
ghost use Rattle.pt_val.specs.Size.{size_of};

use crate::Val;

/// The size of a value, by which the cost of an expression is counted.
///
/// A number or a truth value is 1, a text or bytes 1 more than its length, and a list, a tuple or a node
/// 1 more than its members together. A node's label counts nothing. A size above the greatest `u64` is
/// answered as the greatest `u64`.
#[cycle(size)]
pub fn size(value: &Val) -> u64
    ensures { result ≡ min (size_of value.now) u64.MAX }
{
    match value {
        Val::Int(_) | Val::Bool(_) => 1,
        Val::Text(chars) => (chars.len() as u64).saturating_add(1),
        Val::Bytes(bytes) => (bytes.len() as u64).saturating_add(1),
        Val::List(members) | Val::Tuple(members) | Val::Node(_, members) => {
            total_size(members.as_slice()).saturating_add(1)
        }
    }
}

#[cycle(size)]
fn total_size(values: &[Val]) -> u64
    ensures { result ≡ min (sum_by size_of values.now) u64.MAX }
{
    let mut total = 0u64;
    for value in values {
        total = total.saturating_add(size(value));
    }
    total
}
