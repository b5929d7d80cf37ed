//! Lists of choices as stored bytes, in both versions, with the places where neither can be read.

ghost use Rattle.std.specs.Prelude.{IfOk};
ghost use Rattle.pt_wire.specs.Limits.{IsWritable};

use crate::expect::expect;
use crate::sample::{Sample, choices_of};
use crate::spellings::{SPELLINGS, fails_at, has_read, repeated};
use pt_choice::{Choices, NoMemory};
use pt_wire::{MAX_PRINTED, WireFault, decode, decode_one, encode, unpack};
use std::alloc::Global;

// The list that an entry of version 2 stores. No bytes of the tables are more.
fn decoded(alloc: Global, bytes: &[u8]) -> Result<Choices, WireFault>
    ensures { IfOk result IsWritable }
{
    if bytes.len() > MAX_PRINTED {
        return Err(WireFault::NoMemory);
    }
    decode(alloc, bytes)
}

// The list that an entry of version 1 stores.
fn decoded_one(alloc: Global, bytes: &[u8]) -> Result<Choices, WireFault> {
    if bytes.len() > MAX_PRINTED {
        return Err(WireFault::NoMemory);
    }
    decode_one(alloc, bytes)
}

// Whether the entry is read as the list, and the list stored as the entry.
fn is_stored(
    alloc: Global,
    list: &[Sample],
    header: &[u8],
    held: &[u8],
) -> Result<bool, WireFault> {
    let list = choices_of(alloc, list)?;
    let entry = repeated(alloc, header, held, 1, b"")?;
    let read = decoded(alloc, entry.as_slice())?;
    Ok(read == list && encode(alloc, &read)? == entry)
}

// Whether the bytes of version 1 are read as the list.
fn is_read(alloc: Global, list: &[Sample], bytes: &[u8]) -> Result<bool, WireFault> {
    let list = choices_of(alloc, list)?;
    Ok(decoded_one(alloc, bytes)? == list)
}

#[test]
fn entries_are_read_and_stored(rt: HostRuntime) {
    for (row, (list, _, header, held)) in SPELLINGS.iter().enumerate() {
        expect(&rt, row, is_stored(rt.alloc(), list, header, held));
    }
}

#[test]
fn entries_of_version_1_are_read(rt: HostRuntime) {
    for (row, (list, _, _, held)) in SPELLINGS.iter().enumerate() {
        expect(&rt, row, is_read(rt.alloc(), list, held));
    }
}

/// Bytes that version 1 stores no list as, and the first place from which that is so.
const OTHER_BYTES: [(&[u8], u32); 12] = [
    (b"\x05", 0),
    (b"\xf2\x00\x00", 0),
    (b"\x02", 1),
    (b"\x02\x80\x00", 2),
    (b"\x02\xff\xff\xff\xff\xff\xff\xff\xff\xff\x03", 10),
    (b"\x02\xfe\xff\xff\xff\xff\xff\xff\xff\xff\x83", 10),
    (b"\x02\xfe\xff\xff\xff\xff\xff\xff\xff\xff\x04", 10),
    (
        b"\x02\x80\x80\x80\x80\x80\x80\x80\x80\x80\x80\x80\x80\x80\x80\x80\x80\x80\x80\x80\x01",
        10,
    ),
    (b"\x01\x03", 2),
    (b"\x03\x41", 1),
    (b"\x04\x02\xff", 3),
    (b"\x00\x06\x00", 1),
];

/// Bytes that version 2 stores no list as, and the first place from which that is so.
const OTHER_ENTRIES: [(&[u8], u32); 14] = [
    (b"", 0),
    (b"\x00", 0),
    (b"\x02\x14", 0),
    (b"\xf2", 1),
    (b"\xf2\x01", 2),
    (b"\xf2\x01\x00", 3),
    (b"\xf2\x01\x00\x02\x14\x00", 5),
    (b"\xf2\x00\x00\x00", 3),
    (b"\xf2\x02\x00\x00", 4),
    (b"\xf2\x02\x00\x01\x03\x41", 5),
    (b"\xf2\x02\x00\x01\x03", 5),
    (b"\xf2\x00\x01\x02\x14", 5),
    (b"\xf2\x01\x00\x05", 3),
    (b"\xf2\x01\x00\x02\x80\x00", 5),
];

#[test]
fn bytes_fail_at_the_least_place(rt: HostRuntime) {
    for (row, (bytes, at)) in OTHER_BYTES.iter().enumerate() {
        expect(&rt, row, fails_at(decoded_one(rt.alloc(), bytes), *at));
    }
}

#[test]
fn entries_fail_at_the_least_place(rt: HostRuntime) {
    for (row, (bytes, at)) in OTHER_ENTRIES.iter().enumerate() {
        expect(&rt, row, fails_at(decoded(rt.alloc(), bytes), *at));
    }
}

/// Entries of version 1, as what stands behind so many choices `false`, and how many choices each stores.
const LONG_BYTES: [(u16, &[u8], Result<usize, WireFault>); 3] = [
    (256, b"", Ok(256)),
    (257, b"", Err(WireFault::TooLong)),
    (65_535, b"\x00", Err(WireFault::TooLong)),
];

/// Entries of version 2, as what stands before and behind so many choices `false`, and how many choices each stores.
const LONG_ENTRIES: [(&[u8], u16, &[u8], Result<usize, WireFault>); 8] = [
    (b"\xf2\x00\x01", 256, b"", Ok(256)),
    (b"\xf2\x01\x01", 257, b"", Err(WireFault::TooLong)),
    (b"\xf2\xff\xff", 65_535, b"", Err(WireFault::TooLong)),
    (
        b"\xf2\xff\xff",
        65_535,
        b"\x00",
        Err(WireFault::NotSpelling { at: 65_538 }),
    ),
    (
        b"\xf2\x00\x00",
        65_535,
        b"\x00",
        Err(WireFault::NotSpelling { at: 3 }),
    ),
    (
        b"\xf2\x00\x01",
        257,
        b"",
        Err(WireFault::NotSpelling { at: 259 }),
    ),
    (
        b"\xf2\x01\x01",
        256,
        b"",
        Err(WireFault::NotSpelling { at: 259 }),
    ),
    (
        b"\xf2\x01\x01",
        256,
        b"\x05",
        Err(WireFault::NotSpelling { at: 259 }),
    ),
];

fn are_long_bytes(
    alloc: Global,
    count: u16,
    last: &[u8],
    want: Result<usize, WireFault>,
) -> Result<bool, NoMemory> {
    let bytes = repeated(alloc, b"", b"\x00", count, last)?;
    Ok(has_read(decoded_one(alloc, bytes.as_slice()), want))
}

fn is_long_entry(
    alloc: Global,
    header: &[u8],
    count: u16,
    last: &[u8],
    want: Result<usize, WireFault>,
) -> Result<bool, NoMemory> {
    let entry = repeated(alloc, header, b"\x00", count, last)?;
    Ok(has_read(decoded(alloc, entry.as_slice()), want))
}

#[test]
fn long_bytes_are_read_or_refused(rt: HostRuntime) {
    for (row, (count, last, want)) in LONG_BYTES.iter().enumerate() {
        expect(&rt, row, are_long_bytes(rt.alloc(), *count, last, *want));
    }
}

#[test]
fn long_entries_are_read_or_refused(rt: HostRuntime) {
    for (row, (header, count, last, want)) in LONG_ENTRIES.iter().enumerate() {
        expect(
            &rt,
            row,
            is_long_entry(rt.alloc(), header, *count, last, *want),
        );
    }
}

/// Bytes of a file, and of what they unpack to the number of choices and whether it is old.
const UNPACKED: [(&[u8], Option<(usize, bool)>); 10] = [
    (b"", Some((0, true))),
    (b"\xf2\x00\x00", Some((0, false))),
    (b"\x02\x14", Some((1, true))),
    (b"\xf2\x01\x00\x02\x14", Some((1, false))),
    (b"\x00\x01", Some((2, true))),
    (b"\xf2\x02\x00\x00\x01", Some((2, false))),
    (b"\x05", None),
    (b"\xf2", None),
    (b"\xf2\x01\x00", None),
    (b"\xf2\x01\x00\x02\x14\x00", None),
];

fn unpacks(alloc: Global, bytes: &[u8], want: Option<(usize, bool)>) -> Result<bool, NoMemory> {
    if bytes.len() > MAX_PRINTED {
        return Ok(false);
    }
    let found = unpack(alloc, bytes)?;
    Ok(found.map(|entry| (entry.list.len(), entry.old)) == want)
}

#[test]
fn entries_of_both_versions_are_unpacked(rt: HostRuntime) {
    for (row, (bytes, want)) in UNPACKED.iter().enumerate() {
        expect(&rt, row, unpacks(rt.alloc(), bytes, *want));
    }
}

// Whether the entry of so many choices `false` unpacks to none.
fn is_stale(alloc: Global, header: &[u8], count: u16) -> Result<bool, NoMemory> {
    let entry = repeated(alloc, header, b"\x00", count, b"")?;
    unpacks(alloc, entry.as_slice(), None)
}

#[test]
fn entries_of_too_many_choices_are_stale(rt: HostRuntime) {
    expect(&rt, 0, is_stale(rt.alloc(), b"", 257));
    expect(&rt, 1, is_stale(rt.alloc(), b"\xf2\x01\x01", 257));
}
