//! What a crash leaves after each call, worked out by hand. A line is a call, and then the images that keep least, that
//! keep most, and that are torn.

use crate::folder::{empty, files_of, made};
use pt_disk::{Keep, MemoryDisk};
use std::alloc::Global;
use std::test::Fail;

const FIRST_SAVE: &str = "\
put pending 12345: - | pending=12345 | pending=12
sync pending: - | pending=12345 | -
rename pending f: - | f=12345 | -
settle: f=12345 | f=12345 | f=12345";

// Over another file of the name and an old `pending`, both stable.
const SAVE: &str = "\
put f ab: - | f=ab | f=a
sync f: - | f=ab | -
put pending xyz: - | f=ab pending=xyz | pending=x
sync pending: - | f=ab pending=xyz | -
settle: f=ab pending=xyz | f=ab pending=xyz | f=ab pending=xyz
put pending 12345: f=ab pending=xyz | f=ab pending=12345 | f=ab pending=12
sync pending: f=ab pending=xyz | f=ab pending=12345 | f=ab pending=xyz
rename pending f: f=ab pending=xyz | f=12345 | f=ab pending=xyz
settle: f=12345 | f=12345 | f=12345";

const DELETE: &str = "\
put f ab: - | f=ab | f=a
put g cd: - | f=ab g=cd | f=a g=c
sync g: - | f=ab g=cd | f=a
sync f: - | f=ab g=cd | -
settle: f=ab g=cd | f=ab g=cd | f=ab g=cd
remove f: f=ab g=cd | g=cd | f=ab g=cd
settle: g=cd | g=cd | g=cd";

// A second put, a sync of another name, a settle before the sync, and a put that is removed.
const PUTS: &str = "\
put a old: - | a=old | a=o
put a 12345: - | a=12345 | a=12
sync b: - | a=12345 | a=12
settle: - | a=12345 | a=12
put a 678: - | a=678 | a=6
sync a: a=12345 | a=678 | a=12345
settle: a=678 | a=678 | a=678
put a 9: a=678 | a=9 | a=
remove a: a=678 | - | a=
settle: - | - | -";

// To itself, over a stable file, of an unsynced file, and a remove of what was renamed.
const RENAMES: &str = "\
put a one: - | a=one | a=o
sync a: - | a=one | -
put b two: - | a=one b=two | b=t
sync b: - | a=one b=two | -
settle: a=one b=two | a=one b=two | a=one b=two
rename a a: a=one b=two | a=one b=two | a=one b=two
rename a b: a=one b=two | b=one | a=one b=two
remove b: a=one b=two | - | a=one b=two
put c 1234: a=one b=two | c=1234 | a=one b=two c=12
rename c a: a=one b=two | a=1234 | a=one b=two c=12
settle: a=one | a=1234 | a=12
rename a a: a=one | a=1234 | a=12
sync a: a=1234 | a=1234 | a=1234";

// Whether a crash that keeps so much leaves these files.
fn leaves(alloc: Global, disk: &MemoryDisk, keep: Keep, files: &str) -> Result<bool, Fail> {
    let mut image = disk.image(keep)?;
    let left = files_of(alloc, &mut image)?;
    Ok(left.as_slice() == files.as_bytes())
}

// The number of the first call that does not leave the images of its line.
fn first_wrong(alloc: Global, lines: &str) -> Result<Option<usize>, Fail> {
    let mut disk = empty(alloc, &[])?;
    for (number, line) in lines.lines().enumerate() {
        let (call, images) = line.split_once(": ").ok_or("no images")?;
        made(&mut disk, call)?;
        let (least, others) = images.split_once(" | ").ok_or("one image")?;
        let (most, torn) = others.split_once(" | ").ok_or("two images")?;
        if !leaves(alloc, &disk, Keep::Least, least)?
            || !leaves(alloc, &disk, Keep::Most, most)?
            || !leaves(alloc, &disk, Keep::Torn, torn)?
        {
            return Ok(Some(number));
        }
    }
    Ok(None)
}

#[test]
fn each_call_leaves_its_images(rt: HostRuntime) -> Result<(), Fail> {
    for lines in [FIRST_SAVE, SAVE, DELETE, PUTS, RENAMES] {
        assert_eq!(rt; first_wrong(rt.alloc(), lines)?, None, "{lines}");
    }
    Ok(())
}
