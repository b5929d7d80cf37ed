ghost use Rattle.std.specs.Prelude.{◌≡◌, ◌-◌, ◌<◌, ◌≤◌, ◌^◌, List, length, IfErr, IfOk};
ghost use Rattle.pt_choice.specs.declared.choice.Choice.{Choice};
ghost use Rattle.pt_wire.specs.Answer.{IsAnswerFor, Reads, StopsAt};
ghost use Rattle.pt_choice.specs.Limits.{IsBounded};
ghost use Rattle.pt_wire.specs.Limits.{IsWritable};
ghost use Rattle.pt_wire.specs.Spelling.{FailsAt, Splits, StartsWith};
ghost use Rattle.pt_wire.specs.Stored.{IsCounted, IsHeader, Stored, StoredChoice, StoredOne, zigzag};

use crate::WireFault;
use crate::fault::Stop;
use crate::gathered::Gathered;
use crate::groups::read_groups;
use crate::header::read_header;
use pt_choice::{Choice, Choices, Octets};
use std::alloc::Global;

/// Reads the bytes that the database stores for a list of choices, all of them, in version 2. They are fewer than
/// 2^32. A list of more than 256 choices is not kept, and the bytes behind its first 256 are still read.
pub fn decode(alloc: Global, bytes: &[u8]) -> Result<Choices, WireFault>
    requires { length bytes.now < 2 ^ 32 }
    ensures reads { Reads Stored bytes.now result }
    ensures only { (list : List Choice) → Stored list bytes.now → IsAnswerFor list result }
    ensures writable { IfOk result IsWritable }
{
    match read_header(bytes) {
        Ok((count, held)) => read_list(alloc, bytes, count, held),
        Err(place) => Err(WireFault::NotSpelling { at: place as u32 }),
    }
}

/// Reads what an entry holds behind its header: so many choices, and nothing after them. Places are the entry's.
fn read_list(alloc: Global, entry: &[u8], count: u16, held: &[u8]) -> Result<Choices, WireFault>
    requires short { length entry.now < 2 ^ 32 }
    requires split { Splits IsHeader count entry.now held.now }
    ensures { Reads Stored entry.now result }
{
    let mut gathered = Gathered::empty(alloc);
    let mut rest = held;
    for _ in 0..count {
        match read_choice(alloc, rest) {
            Ok((choice, after)) => {
                gathered.gather(choice)?;
                rest = after;
            }
            Err(Stop::At(place)) => {
                let at = entry.len() - rest.len() + place;
                return Err(WireFault::NotSpelling { at: at as u32 });
            }
            Err(Stop::NoMemory) => return Err(WireFault::NoMemory),
        }
    }
    if rest.is_empty() {
        return gathered.into_list();
    }
    let at = entry.len() - rest.len();
    Err(WireFault::NotSpelling { at: at as u32 })
}

/// Reads the bytes of version 1, all of them, as `decode` does those of version 2.
pub fn decode_one(alloc: Global, bytes: &[u8]) -> Result<Choices, WireFault>
    requires { length bytes.now < 2 ^ 32 }
    ensures reads { Reads StoredOne bytes.now result }
    ensures only { (list : List Choice) → StoredOne list bytes.now → IsAnswerFor list result }
    ensures writable { IfOk result IsWritable }
{
    let mut gathered = Gathered::empty(alloc);
    let mut rest = bytes;
    while !rest.is_empty() {
        match read_choice(alloc, rest) {
            Ok((choice, after)) => {
                gathered.gather(choice)?;
                rest = after;
            }
            Err(Stop::At(place)) => {
                let at = bytes.len() - rest.len() + place;
                return Err(WireFault::NotSpelling { at: at as u32 });
            }
            Err(Stop::NoMemory) => return Err(WireFault::NoMemory),
        }
    }
    gathered.into_list()
}

const GREATEST_NUMBER: u128 = 0x1_ffff_ffff_ffff_fffe;

const MOST_BYTES: u8 = 64;

/// Reads the choice at the front, and what follows it.
fn read_choice(alloc: Global, bytes: &[u8]) -> Result<(Choice, &[u8]), Stop>
    ensures ok { IfOk result (λ found. Splits StoredChoice found.0 bytes.now found.1.now) }
    ensures err { IfErr result (StopsAt (StartsWith StoredChoice) bytes.now) }
{
    let Some((sort, held)) = bytes.split_first() else {
        return Err(Stop::At(0));
    };
    match *sort {
        0 => Ok((Choice::Bool(false), held)),
        1 => Ok((Choice::Bool(true), held)),
        2 => match read_groups(held, 0, GREATEST_NUMBER) {
            Ok((number, rest)) => Ok((Choice::Int(integer(number)), rest)),
            Err(place) => Err(Stop::At(place + 1)),
        },
        3 => match read_counted(held) {
            Ok((items, rest)) => Ok((Choice::Bytes(Octets::of(alloc, items)?), rest)),
            Err(place) => Err(Stop::At(place + 1)),
        },
        4 => match read_counted(held) {
            Ok((places, rest)) => Ok((Choice::Text(Octets::of(alloc, places)?), rest)),
            Err(place) => Err(Stop::At(place + 1)),
        },
        _ => Err(Stop::At(0)),
    }
}

/// The integer that a number stands for.
fn integer(number: u128) -> i128
    requires { number ≤ 2 ^ 65 - 2 }
    ensures value { zigzag result ≡ number }
    ensures small { IsBounded result }
{
    let half = (number / 2) as i128;
    if number % 2 == 0 { half } else { -half - 1 }
}

/// Reads how many bytes there are and the bytes, and what follows them.
fn read_counted(bytes: &[u8]) -> Result<(&[u8], &[u8]), usize>
    ensures ok { IfOk result (λ found. Splits IsCounted found.0.now bytes.now found.1.now) }
    ensures err { IfErr result (FailsAt (StartsWith IsCounted) bytes.now) }
{
    let Some((count, rest)) = bytes.split_first() else {
        return Err(0);
    };
    if *count > MOST_BYTES {
        return Err(0);
    }
    let count = usize::from(*count);
    if rest.len() < count {
        return Err(bytes.len());
    }
    Ok(rest.split_at(count))
}
