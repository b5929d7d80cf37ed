ghost use Rattle.std.specs.Prelude.{◌≡◌, map};
ghost use Rattle.std.specs.List.{list_all};
ghost use Rattle.pt_val.specs.Typing.{has_type, are_of};

use crate::{Ty, Val};

/// Whether the value is of the type.
///
/// Each member of a list is of the type that the list's type names, the members of a tuple are of its
/// types one by one, and a node is a tree whose children are trees.
#[cycle(has_type)]
pub fn has_type(value: &Val, ty: &Ty) -> bool
    ensures { result ≡ has_type value.now ty.now }
{
    match (value, ty) {
        (Val::Int(_), Ty::Int) => true,
        (Val::Bool(_), Ty::Bool) => true,
        (Val::Text(_), Ty::Text) => true,
        (Val::Bytes(_), Ty::Bytes) => true,
        (Val::List(members), Ty::List(member)) => all_have_type(members.as_slice(), member),
        (Val::Tuple(members), Ty::Tuple(types)) => have_types(members.as_slice(), types.as_slice()),
        (Val::Node(_, children), Ty::Tree) => all_have_type(children.as_slice(), ty),
        _ => false,
    }
}

#[cycle(has_type)]
fn all_have_type(values: &[Val], ty: &Ty) -> bool
    ensures { result ≡ list_all (λ is_of. is_of ty.now) (map has_type values.now) }
{
    for value in values {
        if !has_type(value, ty) {
            return false;
        }
    }
    true
}

#[cycle(has_type)]
fn have_types(values: &[Val], types: &[Ty]) -> bool
    ensures { result ≡ are_of (map has_type values.now) types.now }
{
    if values.len() != types.len() {
        return false;
    }
    for (value, ty) in values.iter().zip(types) {
        if !has_type(value, ty) {
            return false;
        }
    }
    true
}
