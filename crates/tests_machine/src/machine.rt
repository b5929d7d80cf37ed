//! The files and the output of the machine.

use pt_io::{IoFailed, ReadStop, read_whole, write_all};
use pt_real::{RealFiles, StdSink};
use std::fs;
use std::io::{self, Error, ErrorKind, Write};
use std::test::Fail;

const NAME: &str = "a_file_of_the_test";

#[test]
fn a_file_of_the_machine_is_read_whole(rt: HostRuntime) -> Result<(), Fail> {
    let alloc = rt.alloc();
    fs::create(&rt, NAME)?.write_all(b"check never")?;
    let mut files = RealFiles::of(&rt);
    let read = read_whole(alloc, &mut files, NAME);
    fs::remove_file(&rt, NAME)?;
    let text = read.map_err(|_| "the file's bytes")?;
    assert_eq!(rt; text.as_slice(), b"check never".as_slice());
    assert_eq!(rt; files.faults(), 0);
    let stop = read_whole(alloc, &mut files, NAME).err();
    assert_eq!(rt; stop, Some(ReadStop::Failed));
    assert_eq!(rt; files.faults(), 1);
    Ok(())
}

#[test]
fn a_folder_cannot_be_read(rt: HostRuntime) -> Result<(), Fail> {
    let mut files = RealFiles::of(&rt);
    let stop = read_whole(rt.alloc(), &mut files, ".").err();
    assert_eq!(rt; stop, Some(ReadStop::Failed));
    assert_eq!(rt; files.faults(), 1);
    Ok(())
}

#[test]
fn the_standard_output_takes_a_line(rt: HostRuntime) -> Result<(), Fail> {
    let mut sink = StdSink::of(io::writer(&rt));
    assert_eq!(rt; write_all(&mut sink, b"a line of the test\n"), Ok(()));
    assert_eq!(rt; sink.faults(), 0);
    Ok(())
}

// An output that takes at most two bytes a call, and no more than so many in all.
#[derive(Drop)]
struct Narrow {
    room: usize,
    full: Full,
}

// What it does with a piece when it is full.
#[derive(Clone, Copy, Debug)]
enum Full {
    Fails,
    TakesNothing,
}

impl Write for Narrow {
    fn write(&mut self, from: &[u8]) -> io::Result<usize> {
        let taken = from.len().min(2).min(self.room);
        self.room -= taken;
        match self.full {
            Full::Fails if taken == 0 => Err(Error::from(ErrorKind::Other)),
            _ => Ok(taken),
        }
    }

    fn flush(&mut self) -> io::Result<()> {
        Ok(())
    }
}

#[test]
fn a_piece_is_written_in_parts_or_counted_as_a_fault(rt: HostRuntime) -> Result<(), Fail> {
    for (room, full, written, faults) in [
        (5, Full::Fails, Ok(()), 0),
        (5, Full::TakesNothing, Ok(()), 0),
        (4, Full::Fails, Err(IoFailed), 1),
        (4, Full::TakesNothing, Err(IoFailed), 1),
        (0, Full::Fails, Err(IoFailed), 1),
        (0, Full::TakesNothing, Err(IoFailed), 1),
    ] {
        let mut sink = StdSink::of(Narrow { room, full });
        assert_eq!(rt; write_all(&mut sink, b"piece"), written, "{room} {full:?}");
        assert_eq!(rt; sink.faults(), faults, "{room} {full:?}");
    }
    Ok(())
}
