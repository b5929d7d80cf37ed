//! Calls of the program, one after another, over one folder, one file and one output in memory.

ghost use Rattle.std.specs.Prelude.{◌≤◌, length, IfOk};

use crate::both::Both;
use pt_case::Check;
use pt_choice::{NoMemory, Octets};
use pt_disk::MemoryDisk;
use pt_io::{Calls, MemoryFiles, MemorySink, NamedFiles};
use pt_run::top;
use std::alloc::Global;
use std::thread::Threads;

/// The words of a call, and its status.
pub type Call = (&'static [&'static str], u8);

/// Calls where this is the file `s`, and what all of them write. The calls of the files and of the output with these numbers, if any, fail.
#[derive(Clone, Copy)]
pub struct Script {
    pub suite: Option<&'static str>,
    pub read: Option<u64>,
    pub write: Option<u64>,
    pub calls: &'static [Call],
    pub output: &'static str,
}

/// Whether the calls over this folder end so, and write just this.
pub fn is_told<R: Threads + Sync>(
    rt: &R,
    alloc: Global,
    script: Script,
    disk: &mut MemoryDisk,
) -> Result<bool, NoMemory> {
    let mut files = MemoryFiles::of(files(alloc, script.suite)?, calls(alloc, script.read)?);
    let mut sink = MemorySink::of(alloc, calls(alloc, script.write)?);
    let ended = all_end(rt, alloc, script.calls, &mut files, disk, &mut sink)?;
    Ok(ended && sink.written() == script.output.as_bytes())
}

// Whether each call ends so, up to the first that does not.
fn all_end<R: Threads + Sync>(
    rt: &R,
    alloc: Global,
    calls: &[Call],
    files: &mut MemoryFiles,
    disk: &mut MemoryDisk,
    sink: &mut MemorySink,
) -> Result<bool, NoMemory> {
    let checks: [Both; 0] = [];
    for (words, status) in calls {
        if ended(rt, alloc, words, files, disk, sink, &checks)? != *status {
            return Ok(false);
        }
    }
    Ok(true)
}

/// The status with which a call ends.
pub fn ended<R: Threads + Sync, C: Check>(
    rt: &R,
    alloc: Global,
    asked: &[&str],
    files: &mut MemoryFiles,
    disk: &mut MemoryDisk,
    sink: &mut MemorySink,
    checks: &[C],
) -> Result<u8, NoMemory>
    requires { length checks.now ≤ 1 }
{
    let words = words(alloc, asked)?;
    let finish = top(rt, alloc, words.as_slice(), files, disk, sink, checks)?;
    Ok(finish.status)
}

fn words(alloc: Global, of: &[&str]) -> Result<Vec<String>, NoMemory> {
    let mut words = Vec::new(alloc);
    for word in of {
        words.push(String::from_str(alloc, word)?)?;
    }
    Ok(words)
}

/// The file `s`, if there is one.
pub fn files(alloc: Global, suite: Option<&str>) -> Result<NamedFiles, NoMemory>
    ensures { IfOk result (λ files. length files ≤ 1) }
{
    let mut files = NamedFiles::empty(alloc);
    if let Some(text) = suite {
        let name = Octets::of(alloc, b"s")?;
        files.push((name, Octets::of(alloc, text.as_bytes())?))?;
    }
    Ok(files)
}

/// The call of this number, if one is to fail.
pub fn calls(alloc: Global, number: Option<u64>) -> Result<Calls, NoMemory> {
    let mut calls = Calls::empty(alloc);
    if let Some(number) = number {
        calls.push(number)?;
    }
    Ok(calls)
}
