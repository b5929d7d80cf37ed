ghost use Rattle.std.specs.Prelude.{◌≡◌, IfOk, OnOk};
ghost use Rattle.pt_choice.specs.Limits.{IsBounded, IsFew, IsInLimits};
ghost use Rattle.pt_wire.specs.Limits.{IsWritable};
ghost use Rattle.pt_wire.specs.Spelling.{Appends};
ghost use Rattle.pt_wire.specs.Stored.{IsCounted, Stored, StoredChoice, zigzag};

use crate::groups::push_groups;
use crate::header::push_header;
use pt_choice::{Choice, Choices, NoMemory, Octets};
use std::alloc::Global;

/// The most bytes in which at most 256 choices are stored: 256 choices of at most 66 bytes each, behind 3.
pub const MAX_STORED: usize = 16_899;

/// The bytes that the database stores for a list of choices, in version 2.
pub fn encode(alloc: Global, list: &Choices) -> Result<Octets, NoMemory>
    requires { IsWritable list.now }
    ensures { IfOk result (Stored list.now) }
{
    let mut out = Octets::empty(alloc);
    push_header(&mut out, list.len())?;
    for choice in list.as_slice() {
        push_choice(&mut out, choice)?;
    }
    Ok(out)
}

fn push_choice(out: &mut Octets, choice: &Choice) -> Result<(), NoMemory>
    requires { IsInLimits choice.now }
    ensures { OnOk result (Appends StoredChoice choice.now out.old out.new) }
{
    match choice {
        Choice::Bool(value) => out.push(u8::from(*value)),
        Choice::Int(value) => {
            out.push(2)?;
            push_groups(out, zigzag(*value))
        }
        Choice::Bytes(items) => {
            out.push(3)?;
            push_counted(out, items.as_slice())
        }
        Choice::Text(places) => {
            out.push(4)?;
            push_counted(out, places.as_slice())
        }
    }
}

/// The number that stands for an integer of magnitude below 2^64.
fn zigzag(value: i128) -> u128
    requires { IsBounded value }
    ensures { result ≡ zigzag value }
{
    let twice = 2 * value.unsigned_abs();
    if value < 0 { twice - 1 } else { twice }
}

/// Writes how many bytes there are, and the bytes.
fn push_counted(out: &mut Octets, bytes: &[u8]) -> Result<(), NoMemory>
    requires { IsFew bytes.now }
    ensures { OnOk result (Appends IsCounted bytes.now out.old out.new) }
{
    out.push(bytes.len() as u8)?;
    for byte in bytes {
        out.push(*byte)?;
    }
    Ok(())
}
