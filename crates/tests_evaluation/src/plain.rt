//! Values as tables write them.

use pt_choice::{NoMemory, Octets};
use pt_val::{Chars, Val, Vals};
use std::alloc::Global;

/// A value as plain data.
#[derive(Clone, Copy)]
pub enum Plain {
    Int(i64),
    Bool(bool),
    Text(&'static [char]),
    Bytes(&'static [u8]),
    List(&'static [Plain]),
    Tuple(&'static [Plain]),
    Node(i64, &'static [Plain]),
}

#[cycle(plain)]
pub fn value_of(alloc: Global, plain: &Plain) -> Result<Val, NoMemory> {
    match plain {
        Plain::Int(number) => Ok(Val::Int(*number)),
        Plain::Bool(truth) => Ok(Val::Bool(*truth)),
        Plain::Text(chars) => Ok(Val::Text(Chars::of(alloc, chars)?)),
        Plain::Bytes(bytes) => Ok(Val::Bytes(Octets::of(alloc, bytes)?)),
        Plain::List(members) => Ok(Val::List(values_of(alloc, members)?)),
        Plain::Tuple(members) => Ok(Val::Tuple(values_of(alloc, members)?)),
        Plain::Node(label, children) => Ok(Val::Node(*label, values_of(alloc, children)?)),
    }
}

#[cycle(plain)]
fn values_of(alloc: Global, plain: &[Plain]) -> Result<Vals, NoMemory> {
    let mut values = Vals::empty(alloc);
    for member in plain {
        values.push(value_of(alloc, member)?)?;
    }
    Ok(values)
}
