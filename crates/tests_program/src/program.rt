//! The program's one call over files, a folder and an output in memory.

ghost use Rattle.std.specs.Prelude.{◌≤◌, length, IfOk};

use crate::samples::{Ends, Noting, Way};
use pt_case::Check;
use pt_choice::{NoMemory, Octets};
use pt_disk::MemoryDisk;
use pt_io::{Calls, MemoryFiles, MemorySink, NamedFiles};
use pt_run::top;
use std::alloc::Global;
use std::test::Fail;
use std::thread::Threads;

// A call with these words, where this is the file `s`, and these calls of the files and of the output fail; and what
// it writes and its status.
#[derive(Clone, Copy, Debug)]
struct Row {
    words: &'static [&'static str],
    suite: Option<&'static str>,
    read: Option<u64>,
    write: Option<u64>,
    output: &'static str,
    status: u8,
}

// Whether the call with this one check does so.
fn is_shown<R: Threads + Sync, C: Check>(
    rt: &R,
    alloc: Global,
    checks: &[C],
    row: Row,
) -> Result<bool, NoMemory>
    requires { length checks.now ≤ 1 }
{
    let words = words(alloc, row.words)?;
    let mut files = MemoryFiles::of(files(alloc, row.suite)?, calls(alloc, row.read)?);
    let mut sink = MemorySink::of(alloc, calls(alloc, row.write)?);
    let mut disk = empty_folder(alloc)?;
    let words = words.as_slice();
    let finish = top(rt, alloc, words, &mut files, &mut disk, &mut sink, checks)?;
    Ok(
        sink.written() == row.output.as_bytes()
            && finish.status == row.status
            && sink.starved() == 0,
    )
}

fn is_ended<R: Threads + Sync>(
    rt: &R,
    alloc: Global,
    way: Way,
    row: Row,
) -> Result<bool, NoMemory> {
    let check = Ends::of(alloc, way)?;
    is_shown(rt, alloc, &[check], row)
}

fn is_noted<R: Threads + Sync>(rt: &R, alloc: Global, row: Row) -> Result<bool, NoMemory> {
    let check = Noting::of(alloc)?;
    is_shown(rt, alloc, &[check], row)
}

pub(crate) fn words(alloc: Global, of: &[&str]) -> Result<Vec<String>, NoMemory> {
    let mut words = Vec::new(alloc);
    for word in of {
        words.push(String::from_str(alloc, word)?)?;
    }
    Ok(words)
}

// The file `s`, if there is one.
pub(crate) fn files(alloc: Global, suite: Option<&str>) -> Result<NamedFiles, NoMemory>
    ensures { IfOk result (λ files. length files ≤ 1) }
{
    let mut files = NamedFiles::empty(alloc);
    if let Some(text) = suite {
        let name = Octets::of(alloc, b"s")?;
        files.push((name, Octets::of(alloc, text.as_bytes())?))?;
    }
    Ok(files)
}

// A folder with no files, of which no call fails.
fn empty_folder(alloc: Global) -> Result<MemoryDisk, NoMemory> {
    MemoryDisk::of(
        alloc,
        pt_disk::NamedFiles::empty(alloc),
        pt_disk::Calls::empty(alloc),
    )
}

// The call of this number, if one is to fail.
fn calls(alloc: Global, number: Option<u64>) -> Result<Calls, NoMemory> {
    let mut calls = Calls::empty(alloc);
    if let Some(number) = number {
        calls.push(number)?;
    }
    Ok(calls)
}

const RUN: &[&str] = &["run", "s", "1", "1"];

const REPLAY: &[&str] = &["replay", "s", "sample", "bt"];

const UNREADABLE: &str = "suite cannot be read\n";

// A call with ample files and output.
const fn shown(
    words: &'static [&'static str],
    suite: &'static str,
    output: &'static str,
    status: u8,
) -> Row {
    Row {
        words,
        suite: Some(suite),
        read: None,
        write: None,
        output,
        status,
    }
}

#[test]
fn a_check_is_run_or_replayed(rt: HostRuntime) -> Result<(), Fail> {
    let alloc = rt.alloc();
    for (way, row) in [
        (
            Way::Passes,
            shown(
                RUN,
                "check sample runs 5",
                "sample: passed, 5 valid\n1 passed, 0 failed, 0 gave up\n",
                0,
            ),
        ),
        (
            Way::Rejects,
            shown(
                RUN,
                "check sample runs 2",
                "sample: gave up, 0 of 2 valid in 20 runs\n0 passed, 0 failed, 1 gave up\n",
                1,
            ),
        ),
        (
            Way::Divides,
            shown(
                RUN,
                "check sample",
                "sample: failed at 3:12 (division), minimal\n  found in run 0\n  choices: -\n0 passed, 1 failed, 0 gave up\n",
                1,
            ),
        ),
        (
            Way::Passes,
            shown(
                RUN,
                "check sample runs 5\nproperty p runs 2 { assert true; }\n",
                "sample: passed, 5 valid\np: passed, 2 valid\n2 passed, 0 failed, 0 gave up\n",
                0,
            ),
        ),
        (
            Way::Passes,
            shown(
                RUN,
                "check nope",
                "suite refused at 1:7: unknown check\n",
                3,
            ),
        ),
        (
            Way::Passes,
            shown(RUN, "property p {", "suite refused at 1:13: syntax\n", 3),
        ),
        (
            Way::Passes,
            shown(REPLAY, "check sample", "sample: passed\n  choices: -\n", 0),
        ),
        (
            Way::Rejects,
            shown(
                REPLAY,
                "check sample",
                "sample: rejected\n  choices: -\n",
                0,
            ),
        ),
        (
            Way::Divides,
            shown(
                REPLAY,
                "check sample",
                "sample: failed at 3:12 (division)\n  choices: -\n",
                1,
            ),
        ),
    ] {
        let done = is_ended(&rt, alloc, way, row);
        assert_eq!(rt; done, Ok(true), "{way:?} {row:?}");
    }
    Ok(())
}

#[test]
fn notes_are_shown(rt: HostRuntime) -> Result<(), Fail> {
    let alloc = rt.alloc();
    for row in [
        shown(
            RUN,
            "check sample",
            "sample: failed at point 2, minimal\n  found in run 0\n  sample = 1\n  sample = 2\n  choices: bf\n0 passed, 1 failed, 0 gave up\n",
            1,
        ),
        shown(
            REPLAY,
            "check sample",
            "sample: failed at point 2\n  sample = 1\n  sample = 2\n  choices: bt\n",
            1,
        ),
        shown(
            &["replay", "s", "sample", "-"],
            "check sample",
            "sample: overrun\n  sample = 1\n  choices: -\n",
            0,
        ),
    ] {
        let done = is_noted(&rt, alloc, row);
        assert_eq!(rt; done, Ok(true), "{row:?}");
    }
    Ok(())
}

#[test]
fn a_failure_outside_has_its_status(rt: HostRuntime) -> Result<(), Fail> {
    let alloc = rt.alloc();
    let suite = Some("check sample runs 5");
    let passed = "sample: passed, 5 valid\n1 passed, 0 failed, 0 gave up\n";
    for (words, suite, read, write, output, status) in [
        (RUN, suite, None, None, passed, 0),
        (RUN, suite, Some(4), Some(3), passed, 0),
        (RUN, suite, Some(1), None, UNREADABLE, 4),
        (RUN, suite, Some(2), None, UNREADABLE, 4),
        (RUN, suite, Some(3), None, UNREADABLE, 4),
        (REPLAY, suite, Some(2), None, UNREADABLE, 4),
        (RUN, None, None, None, UNREADABLE, 4),
        (REPLAY, None, None, None, UNREADABLE, 4),
        (RUN, suite, None, Some(1), "", 5),
        (RUN, suite, None, Some(2), "sample: passed, 5 valid\n", 5),
        (REPLAY, suite, None, Some(1), "", 5),
        (RUN, None, None, Some(1), "", 5),
        (RUN, suite, Some(1), Some(1), "", 5),
        (["run"].as_slice(), suite, None, Some(1), "", 5),
    ] {
        let row = Row {
            words,
            suite,
            read,
            write,
            output,
            status,
        };
        let done = is_ended(&rt, alloc, Way::Passes, row);
        assert_eq!(rt; done, Ok(true), "{row:?}");
    }
    Ok(())
}
