//! That the runs of an item are made on as many workers as the words ask for: no contract says that work goes side by side.

use crate::both::Both;
use crate::expect::expect;
use crate::folder::folder;
use crate::script::{calls, ended, files};
use pt_disk::DiskStop;
use pt_io::{MemoryFiles, MemorySink};
use std::alloc::Global;
use std::test::Fail;
use std::thread::Threads;

// Whether a call with these words makes both runs of the check `both`, and these meet as is wanted.
fn is_met<R: Threads + Sync>(
    rt: &R,
    alloc: Global,
    words: &[&str],
    turns: u64,
    meet: bool,
) -> Result<bool, DiskStop> {
    let mut files = MemoryFiles::of(
        files(alloc, Some("check both runs 2"))?,
        calls(alloc, None)?,
    );
    let mut disk = folder(alloc, &[], None)?;
    let mut sink = MemorySink::of(alloc, calls(alloc, None)?);
    let checks = [Both::of(alloc, turns)?];
    let status = ended(rt, alloc, words, &mut files, &mut disk, &mut sink, &checks)?;
    Ok(status == 0 && checks[0].runs() == 2 && checks[0].have_met() == meet)
}

// A run with two workers and one with one, how often a run of the check looks for the other at most, and whether the two meet.
const MEETINGS: [(&[&str], u64, bool); 2] = [
    (&["run", "s", "1", "2"], 200_000_000, true),
    (&["run", "s", "1", "1"], 1_000_000, false),
];

#[test]
fn two_at_once(rt: HostRuntime) -> Result<(), Fail> {
    for (row, (words, turns, meet)) in MEETINGS.iter().enumerate() {
        expect(&rt, row, is_met(&rt, rt.alloc(), words, *turns, *meet));
    }
    Ok(())
}
