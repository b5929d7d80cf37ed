// Whole files: written, read and synced.
ghost use Rattle.std.specs.Prelude.{◌≡◌, ◌≤◌, length, IfOk, IfSome, IfNone, OnOk};
ghost use Rattle.pt_real.specs.Asked.{Created, Absent, and_did, and_synced};
ghost use Rattle.pt_real.specs.Steps.{IsReadUpTo};

use crate::file_system::FileSystem;
use pt_choice::Octets;
use pt_disk::DiskStop;
use std::alloc::Global;
use std::io::{self, Error, ErrorKind};

// How many bytes are asked for at once.
const PIECE: usize = 4096;

/// The file of this path has these bytes.
pub fn write_whole<S: FileSystem>(system: &mut S, path: &str, bytes: &[u8]) -> io::Result<()>
    ensures { OnOk result (S.asked system.new ≡ and_did (Created path.now bytes.now) (S.asked system.old)) }
{
    system.create(path)?;
    let mut done = 0;
    while done < bytes.len() {
        let taken = system.write(&bytes[done..])?;
        if taken == 0 {
            return Err(Error::from(ErrorKind::WriteZero));
        }
        done += taken;
    }
    Ok(())
}

/// The first `cap` bytes of the file of this path; None where there is none.
pub fn read_first<S: FileSystem>(
    system: &mut S,
    alloc: Global,
    path: &str,
    cap: usize,
) -> Result<Option<Octets>, DiskStop>
    ensures there { IfOk result (λ read. IfSome read (λ bytes. IsReadUpTo cap path.now bytes (S.asked system.old) (S.asked system.new))) }
    ensures absent { IfOk result (λ read. IfNone read (S.asked system.new ≡ and_did (Absent path.now) (S.asked system.old))) }
    ensures within { IfOk result (λ read. IfSome read (λ bytes. length bytes ≤ cap)) }
{
    match system.open(path) {
        Ok(true) => {}
        Ok(false) => return Ok(None),
        Err(_) => return Err(DiskStop::Failed),
    }
    let mut bytes: Vec<u8> = Vec::new(alloc);
    while bytes.len() < cap {
        let mut piece = [0; PIECE];
        let most = PIECE.min(cap - bytes.len());
        let Ok(n) = system.read(&mut piece[..most]) else {
            return Err(DiskStop::Failed);
        };
        if n == 0 {
            break;
        }
        if bytes.extend_from_slice(&piece[..n]).is_err() {
            return Err(DiskStop::NoMemory);
        }
    }
    Ok(Some(Octets::from(bytes)))
}

/// What was written to the file of this path is stable.
pub fn sync_at<S: FileSystem>(system: &mut S, path: &str) -> io::Result<()>
    ensures { OnOk result (S.asked system.new ≡ and_synced path.now (S.asked system.old)) }
{
    if !system.open(path)? {
        return Err(Error::from(ErrorKind::NotFound));
    }
    system.sync()
}
