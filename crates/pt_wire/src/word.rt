ghost use Rattle.std.specs.Prelude.{◌≡◌, ◌<◌, ℕ, false, IfErr, IfOk, MatchOption};
ghost use Rattle.std.specs.Fmt.{digit_glyph};
ghost use Rattle.pt_wire.specs.Answer.{StopsAt};
ghost use Rattle.pt_choice.specs.Limits.{IsFew};
ghost use Rattle.pt_wire.specs.Printed.{PrintedBool, PrintedByte, PrintedChoice, PrintedInteger, PrintedPlaces};
ghost use Rattle.pt_wire.specs.Spelling.{Among, Chained, FailsAt, Splits, StartsWith};

use crate::fault::Stop;
use crate::mark::cut;
use crate::number::read_number;
use pt_choice::{Choice, Octets};
use std::alloc::Global;

const GREATEST_MAGNITUDE: u128 = 0xffff_ffff_ffff_ffff;

const GREATEST_PLACE: u128 = 255;

const MOST_VALUES: usize = 64;

/// Reads the text of one choice, all of it.
pub(crate) fn read_word(alloc: Global, word: &[u8]) -> Result<Choice, Stop>
    ensures ok { IfOk result (λ choice. PrintedChoice choice word.now) }
    ensures err { IfErr result (StopsAt PrintedChoice word.now) }
{
    let Some((sort, held)) = word.split_first() else {
        return Err(Stop::At(0));
    };
    match *sort {
        b'b' => match read_bool(held) {
            Ok(value) => Ok(Choice::Bool(value)),
            Err(place) => Err(Stop::At(place + 1)),
        },
        b'i' => match read_integer(held) {
            Ok(value) => Ok(Choice::Int(value)),
            Err(place) => Err(Stop::At(place + 1)),
        },
        b'x' => match read_bytes(alloc, held) {
            Ok(bytes) => Ok(Choice::Bytes(bytes)),
            Err(Stop::At(place)) => Err(Stop::At(place + 1)),
            Err(Stop::NoMemory) => Err(Stop::NoMemory),
        },
        b't' => match read_places(alloc, held) {
            Ok(places) => Ok(Choice::Text(places)),
            Err(Stop::At(place)) => Err(Stop::At(place + 1)),
            Err(Stop::NoMemory) => Err(Stop::NoMemory),
        },
        _ => Err(Stop::At(0)),
    }
}

fn read_bool(text: &[u8]) -> Result<bool, usize>
    ensures ok { IfOk result (λ value. PrintedBool value text.now) }
    ensures err { IfErr result (FailsAt PrintedBool text.now) }
{
    let Some((letter, others)) = text.split_first() else {
        return Err(0);
    };
    if *letter != b'f' && *letter != b't' {
        return Err(0);
    }
    if !others.is_empty() {
        return Err(1);
    }
    Ok(*letter == b't')
}

fn read_integer(text: &[u8]) -> Result<i128, usize>
    ensures ok { IfOk result (λ value. PrintedInteger value text.now) }
    ensures err { IfErr result (FailsAt PrintedInteger text.now) }
{
    let Some((first, digits)) = text.split_first() else {
        return Err(0);
    };
    if *first != b'-' {
        return match read_number(text, GREATEST_MAGNITUDE) {
            Ok(number) => Ok(number as i128),
            Err(place) => Err(place),
        };
    }
    let Some((leading, _)) = digits.split_first() else {
        return Err(1);
    };
    if *leading == b'0' {
        return Err(1);
    }
    match read_number(digits, GREATEST_MAGNITUDE) {
        Ok(number) => Ok(-(number as i128)),
        Err(place) => Err(place + 1),
    }
}

fn read_bytes(alloc: Global, text: &[u8]) -> Result<Octets, Stop>
    ensures ok { IfOk result (λ bytes. Among IsFew (Chained PrintedByte) bytes text.now) }
    ensures err { IfErr result (StopsAt (Among IsFew (Chained PrintedByte)) text.now) }
{
    let mut bytes = Octets::empty(alloc);
    let mut rest = text;
    while !rest.is_empty() {
        if bytes.len() == MOST_VALUES {
            return Err(Stop::At(text.len() - rest.len()));
        }
        match read_byte(rest) {
            Ok((byte, after)) => {
                bytes.push(byte)?;
                rest = after;
            }
            Err(place) => return Err(Stop::At(text.len() - rest.len() + place)),
        }
    }
    Ok(bytes)
}

/// Reads the two digits at the front, and what follows them.
fn read_byte(text: &[u8]) -> Result<(u8, &[u8]), usize>
    ensures ok { IfOk result (λ found. Splits PrintedByte found.0 text.now found.1.now) }
    ensures err { IfErr result (FailsAt (StartsWith PrintedByte) text.now) }
{
    let Some((first, others)) = text.split_first() else {
        return Err(0);
    };
    let Some(high) = digit(*first) else {
        return Err(0);
    };
    let Some((second, rest)) = others.split_first() else {
        return Err(1);
    };
    let Some(low) = digit(*second) else {
        return Err(1);
    };
    Ok((16 * high + low, rest))
}

/// What a lower-case hexadecimal digit stands for.
fn digit(byte: u8) -> Option<u8>
    ensures { MatchOption result ((value : ℕ) → value < 16 → digit_glyph false value ≡ byte → ⊥) (λ value. (value < 16) × (digit_glyph false value ≡ byte)) }
{
    match byte {
        b'0'..=b'9' => Some(byte - b'0'),
        b'a'..=b'f' => Some(byte - b'a' + 10),
        _ => None,
    }
}

fn read_places(alloc: Global, text: &[u8]) -> Result<Octets, Stop>
    ensures ok { IfOk result (λ places. Among IsFew PrintedPlaces places text.now) }
    ensures err { IfErr result (StopsAt (Among IsFew PrintedPlaces) text.now) }
{
    let mut places = Octets::empty(alloc);
    if text.is_empty() {
        return Ok(places);
    }
    let mut rest = text;
    loop {
        let (digits, after) = cut(rest, b'.');
        match read_number(digits, GREATEST_PLACE) {
            Ok(place) => places.push(place as u8)?,
            Err(place) => return Err(Stop::At(text.len() - rest.len() + place)),
        }
        let Some(others) = after else {
            return Ok(places);
        };
        if places.len() == MOST_VALUES {
            return Err(Stop::At(text.len() - rest.len() + digits.len()));
        }
        rest = others;
    }
}
