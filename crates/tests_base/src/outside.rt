//! Files and a sink, with calls that fail in turn.

ghost use Rattle.std.specs.Prelude.{◌≡◌, [], ◌∷◌, IfOk};

use pt_choice::{NoMemory, Octets};
use pt_io::{
    Calls, Files, IoFailed, MemoryFiles, MemorySink, NamedFiles, ReadStop, read_whole, write_all,
};
use std::alloc::Global;
use std::test::Fail;

// The call of this number, if one is to fail.
fn calls(alloc: Global, number: Option<u64>) -> Result<Calls, NoMemory> {
    let mut calls = Calls::empty(alloc);
    if let Some(number) = number {
        calls.push(number)?;
    }
    Ok(calls)
}

// One file, `s`, of three bytes, and the number of the call that is to fail.
fn one_file(alloc: Global, failing: Option<u64>) -> Result<MemoryFiles, NoMemory> {
    let files = named_file(alloc)?;
    Ok(MemoryFiles::of(files, calls(alloc, failing)?))
}

fn named_file(alloc: Global) -> Result<NamedFiles, NoMemory>
    ensures { IfOk result (λ files. files ≡ (115 ∷ [], 1 ∷ 2 ∷ 3 ∷ []) ∷ []) }
{
    let mut files = NamedFiles::empty(alloc);
    files.push((Octets::of(alloc, &[115])?, Octets::of(alloc, &[1, 2, 3])?))?;
    Ok(files)
}

// What came of reading the file of this name: how many bytes it has, or why it was not read.
fn length_read(
    alloc: Global,
    name: &str,
    failing: Option<u64>,
) -> Result<Result<usize, ReadStop>, NoMemory> {
    let mut files = one_file(alloc, failing)?;
    Ok(read_whole(alloc, &mut files, name).map(|bytes| bytes.len()))
}

#[test]
fn a_file_is_read_whole_or_not(rt: HostRuntime) -> Result<(), Fail> {
    let alloc = rt.alloc();
    for (name, failing, want) in [
        ("s", None, Ok(3)),
        ("t", None, Err(ReadStop::Failed)),
        ("", None, Err(ReadStop::Failed)),
        ("s", Some(1), Err(ReadStop::Failed)),
        ("s", Some(2), Err(ReadStop::Failed)),
        ("s", Some(3), Err(ReadStop::Failed)),
        ("s", Some(4), Ok(3)),
    ] {
        let read = length_read(alloc, name, failing);
        assert_eq!(rt; read, Ok(want), "{name} {failing:?}");
    }
    Ok(())
}

#[test]
fn the_bytes_of_a_file_are_answered(rt: HostRuntime) -> Result<(), Fail> {
    let alloc = rt.alloc();
    let mut files = one_file(alloc, None)?;
    let bytes = read_whole(alloc, &mut files, "s").map_err(|_| "the file's bytes")?;
    assert_eq!(rt; bytes.as_slice(), [1, 2, 3].as_slice());
    Ok(())
}

#[test]
fn a_file_is_moved_into_small_buffers(rt: HostRuntime) -> Result<(), Fail> {
    let mut files = one_file(rt.alloc(), Some(3))?;
    let mut buffer = [0; 2];
    assert_eq!(rt; files.choose("s"), Ok(()));
    assert_eq!(rt; files.read(&mut buffer), Ok(2));
    assert_eq!(rt; buffer, [1, 2]);
    assert_eq!(rt; files.read(&mut buffer), Err(IoFailed));
    assert_eq!(rt; buffer, [1, 2]);
    assert_eq!(rt; files.read(&mut buffer), Ok(1));
    assert_eq!(rt; buffer[0], 3);
    assert_eq!(rt; files.read(&mut buffer), Ok(0));
    Ok(())
}

#[test]
fn a_sink_keeps_what_it_took(rt: HostRuntime) -> Result<(), Fail> {
    let alloc = rt.alloc();
    let mut sink = MemorySink::of(alloc, calls(alloc, Some(1))?);
    assert_eq!(rt; write_all(&mut sink, &[1, 2, 3]), Err(IoFailed));
    assert_eq!(rt; sink.written(), [].as_slice());
    assert_eq!(rt; write_all(&mut sink, &[1, 2, 3]), Ok(()));
    assert_eq!(rt; write_all(&mut sink, &[]), Ok(()));
    assert_eq!(rt; write_all(&mut sink, &[4]), Ok(()));
    assert_eq!(rt; sink.written(), [1, 2, 3, 4].as_slice());
    assert_eq!(rt; sink.starved(), 0);
    Ok(())
}
