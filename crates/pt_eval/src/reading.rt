ghost use Rattle.std.specs.Prelude.{◌≡◌, pos, min, ◌-◌, ◌^◌};
ghost use Rattle.pt_eval.specs.Parts.{number_of, truth_of, members_of, parts_of, length_of, label_of, children_of};

use pt_choice::Seq;
use pt_val::{Val, Vals};
use std::alloc::Global;

/// The number, or 0 for a value of another sort.
pub fn number(val: &Val) -> i64
    ensures { result ≡ number_of val.now }
{
    match val {
        Val::Int(number) => *number,
        _ => 0,
    }
}

/// The truth value, or false for a value of another sort.
pub fn truth(val: &Val) -> bool
    ensures { result ≡ truth_of val.now }
{
    match val {
        Val::Bool(truth) => *truth,
        _ => false,
    }
}

/// The members of a list, or none for a value of another sort.
pub fn members(val: &Val) -> &[Val]
    ensures { result.now ≡ members_of val.now }
{
    match val {
        Val::List(members) => members.as_slice(),
        _ => &[],
    }
}

/// The members of a list, taken out of it.
pub(crate) fn into_members(alloc: Global, val: Val) -> Vals
    ensures { result ≡ members_of val }
{
    match val {
        Val::List(members) => members,
        _ => Seq::empty(alloc),
    }
}

/// The children of a node, taken out of it.
pub(crate) fn into_children(alloc: Global, val: Val) -> Vals
    ensures { result ≡ children_of val }
{
    match val {
        Val::Node(_, children) => children,
        _ => Seq::empty(alloc),
    }
}

/// The parts of a tuple.
pub(crate) fn parts(val: &Val) -> &[Val]
    ensures { result.now ≡ parts_of val.now }
{
    match val {
        Val::Tuple(parts) => parts.as_slice(),
        _ => &[],
    }
}

/// The parts of a tuple, taken out of it.
pub(crate) fn into_parts(alloc: Global, val: Val) -> Vals
    ensures { result ≡ parts_of val }
{
    match val {
        Val::Tuple(parts) => parts,
        _ => Seq::empty(alloc),
    }
}

/// The length of a text, bytes or a list.
pub(crate) fn length(val: &Val) -> i64
    ensures { result ≡ pos (length_of val.now) }
{
    let len = match val {
        Val::Text(chars) => chars.len(),
        Val::Bytes(bytes) => bytes.len(),
        Val::List(members) => members.len(),
        _ => 0,
    };
    capped(len)
}

/// A length as a number.
fn capped(len: usize) -> i64
    ensures { result ≡ pos (min len (2 ^ 63 - 1)) }
{
    let most = i64::MAX as usize;
    if len < most { len as i64 } else { i64::MAX }
}

/// The label of a node.
pub(crate) fn label(val: &Val) -> i64
    ensures { result ≡ label_of val.now }
{
    match val {
        Val::Node(label, _) => *label,
        _ => 0,
    }
}
