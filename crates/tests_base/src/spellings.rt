//! Lists of choices as text, with the places where none can be read, and the tables that stored bytes share with it.

ghost use Rattle.std.specs.Prelude.{IfOk};
ghost use Rattle.pt_wire.specs.Limits.{IsWritable};

use crate::expect::expect;
use crate::sample::Sample::{self, Bytes, Flag, Number, Text};
use crate::sample::choices_of;
use pt_choice::{Choices, NoMemory, Octets};
use pt_wire::{MAX_PRINTED, WireFault, print_choices, read_choices};
use std::alloc::Global;

/// Lists of choices, with their text, the header of the entry that stores them, and the bytes behind it.
pub const SPELLINGS: [(&[Sample], &[u8], &[u8], &[u8]); 10] = [
    (&[], b"-", b"\xf2\x00\x00", b""),
    (&[Number(10)], b"i10", b"\xf2\x01\x00", b"\x02\x14"),
    (&[Number(573)], b"i573", b"\xf2\x01\x00", b"\x02\xfa\x08"),
    (
        &[
            Number(-3),
            Flag(true),
            Text(&[0, 4, 2]),
            Bytes(&[0, 255]),
            Text(&[]),
            Bytes(&[]),
        ],
        b"i-3 bt t0.4.2 x00ff t x",
        b"\xf2\x06\x00",
        b"\x02\x05\x01\x04\x03\x00\x04\x02\x03\x02\x00\xff\x04\x00\x03\x00",
    ),
    (
        &[Flag(false), Flag(true)],
        b"bf bt",
        b"\xf2\x02\x00",
        b"\x00\x01",
    ),
    (
        &[Number(0), Number(1), Number(-1)],
        b"i0 i1 i-1",
        b"\xf2\x03\x00",
        b"\x02\x00\x02\x02\x02\x01",
    ),
    (
        &[Number(63), Number(64), Number(-64)],
        b"i63 i64 i-64",
        b"\xf2\x03\x00",
        b"\x02\x7e\x02\x80\x01\x02\x7f",
    ),
    (
        &[Text(&[255]), Bytes(&[0x9a, 0xf0])],
        b"t255 x9af0",
        b"\xf2\x02\x00",
        b"\x04\x01\xff\x03\x02\x9a\xf0",
    ),
    (
        &[Number(0xffff_ffff_ffff_ffff)],
        b"i18446744073709551615",
        b"\xf2\x01\x00",
        b"\x02\xfe\xff\xff\xff\xff\xff\xff\xff\xff\x03",
    ),
    (
        &[Number(-0xffff_ffff_ffff_ffff)],
        b"i-18446744073709551615",
        b"\xf2\x01\x00",
        b"\x02\xfd\xff\xff\xff\xff\xff\xff\xff\xff\x03",
    ),
];

// The list that the text spells. No text of the tables is longer than the longest spelling.
fn read(alloc: Global, text: &[u8]) -> Result<Choices, WireFault>
    ensures { IfOk result IsWritable }
{
    if text.len() > MAX_PRINTED {
        return Err(WireFault::TooLong);
    }
    read_choices(alloc, text)
}

// Whether the text is read as the list, and the list printed as the text.
fn is_printed(alloc: Global, list: &[Sample], text: &[u8]) -> Result<bool, WireFault> {
    let list = choices_of(alloc, list)?;
    let read = read(alloc, text)?;
    Ok(read == list && print_choices(alloc, &read)?.as_slice() == text)
}

#[test]
fn texts_are_read_and_printed(rt: HostRuntime) {
    for (row, (list, text, _, _)) in SPELLINGS.iter().enumerate() {
        expect(&rt, row, is_printed(rt.alloc(), list, text));
    }
}

/// Texts that spell no list, and the first place from which that is so.
const OTHER_TEXTS: [(&[u8], u32); 28] = [
    (b"i007", 2),
    (b"i-0", 2),
    (b"bt ", 3),
    (b"", 0),
    (b"xf", 2),
    (b"i18446744073709551616", 20),
    (b"i-18446744073709551616", 21),
    (b"i", 1),
    (b"i-", 2),
    (b"i+1", 1),
    (b"i1-", 2),
    (b"b", 1),
    (b"bx", 1),
    (b"btf", 2),
    (b"q", 0),
    (b" bt", 0),
    (b"bt  bt", 3),
    (b"bt\tbf", 2),
    (b"--", 1),
    (b"- bt", 1),
    (b"bt -", 3),
    (b"xF0", 1),
    (b"x0f0", 4),
    (b"xg", 1),
    (b"t256", 3),
    (b"t01", 2),
    (b"t1.", 3),
    (b"t.", 1),
];

pub fn fails_at(read: Result<Choices, WireFault>, at: u32) -> Result<bool, WireFault> {
    Ok(read.err() == Some(WireFault::NotSpelling { at }))
}

#[test]
fn texts_fail_at_the_least_place(rt: HostRuntime) {
    for (row, (text, at)) in OTHER_TEXTS.iter().enumerate() {
        expect(&rt, row, fails_at(read(rt.alloc(), text), *at));
    }
}

/// A text with a part that stands in it many times.
#[derive(Clone, Copy)]
struct Long {
    first: &'static [u8],
    part: &'static [u8],
    count: u16,
    last: &'static [u8],
}

pub fn repeated(
    alloc: Global,
    first: &[u8],
    part: &[u8],
    count: u16,
    last: &[u8],
) -> Result<Octets, NoMemory> {
    let mut all = Vec::from_slice(alloc, first)?;
    for _ in 0..count {
        all.extend_from_slice(part)?;
    }
    all.extend_from_slice(last)?;
    Ok(Octets::from(all))
}

fn written(alloc: Global, long: Long) -> Result<Octets, NoMemory> {
    repeated(alloc, long.first, long.part, long.count, long.last)
}

/// Long texts, and how many choices each spells, or why it spells no list.
const LONG_TEXTS: [(Long, Result<usize, WireFault>); 7] = [
    (
        Long {
            first: b"bf",
            part: b" bf",
            count: 255,
            last: b"",
        },
        Ok(256),
    ),
    (
        Long {
            first: b"bf",
            part: b" bf",
            count: 256,
            last: b"",
        },
        Err(WireFault::TooLong),
    ),
    (
        Long {
            first: b"bf",
            part: b" bf",
            count: 256,
            last: b" q",
        },
        Err(WireFault::NotSpelling { at: 771 }),
    ),
    (
        Long {
            first: b"x07",
            part: b"07",
            count: 63,
            last: b"",
        },
        Ok(1),
    ),
    (
        Long {
            first: b"x07",
            part: b"07",
            count: 64,
            last: b"",
        },
        Err(WireFault::NotSpelling { at: 129 }),
    ),
    (
        Long {
            first: b"t0",
            part: b".0",
            count: 63,
            last: b"",
        },
        Ok(1),
    ),
    (
        Long {
            first: b"t0",
            part: b".0",
            count: 64,
            last: b"",
        },
        Err(WireFault::NotSpelling { at: 128 }),
    ),
];

pub fn has_read(read: Result<Choices, WireFault>, want: Result<usize, WireFault>) -> bool {
    read.map(|list| list.len()) == want
}

fn is_long_text(
    alloc: Global,
    long: Long,
    want: Result<usize, WireFault>,
) -> Result<bool, NoMemory> {
    let text = written(alloc, long)?;
    Ok(has_read(read(alloc, text.as_slice()), want))
}

#[test]
fn long_texts_are_read_or_refused(rt: HostRuntime) {
    for (row, (long, want)) in LONG_TEXTS.iter().enumerate() {
        expect(&rt, row, is_long_text(rt.alloc(), *long, *want));
    }
}

// The text of as many of the longest choices as a list may have.
fn longest(alloc: Global) -> Result<Octets, NoMemory> {
    let word = repeated(alloc, b"t255", b".255", 63, b"")?;
    let further = repeated(alloc, b" ", word.as_slice(), 1, b"")?;
    repeated(alloc, word.as_slice(), further.as_slice(), 255, b"")
}

fn is_longest(alloc: Global) -> Result<bool, WireFault> {
    let text = longest(alloc)?;
    let list = read(alloc, text.as_slice())?;
    let printed = print_choices(alloc, &list)?;
    Ok(list.len() == 256 && text.len() == MAX_PRINTED && printed == text)
}

#[test]
fn longest_choices_are_printed_in_the_most_bytes(rt: HostRuntime) {
    expect(&rt, 0, is_longest(rt.alloc()));
}
