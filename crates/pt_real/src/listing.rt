// The names in a folder of the machine.
ghost use Rattle.std.specs.Prelude.{map, IfOk};
ghost use Rattle.pt_disk.specs.Calls.{AreOrdered};
ghost use Rattle.pt_real.specs.FileNames.{HaveSame};

use pt_choice::{NoMemory, Octets};
use pt_disk::{DiskStop, FileNames};
use std::alloc::Global;
use std::fs::ReadDir;
use std::io::ErrorKind;
use std::rt::Files;

/// The names of these entries, as they come. One that is no text is left out.
pub fn names_of<R: Files + Clone + Drop>(
    alloc: Global,
    entries: ReadDir<R, Global>,
) -> Result<FileNames, DiskStop> {
    let mut names = FileNames::empty(alloc);
    for entry in entries {
        match entry {
            Ok(entry) => names.push(Octets::of(alloc, entry.file_name().as_bytes())?)?,
            Err(error) if error.kind() == ErrorKind::InvalidFilename => {}
            Err(_) => return Err(DiskStop::Failed),
        }
    }
    Ok(names)
}

/// These names, once each and in byte order.
pub fn in_order(alloc: Global, names: &[Octets]) -> Result<FileNames, NoMemory>
    ensures same { IfOk result (λ found. HaveSame found names.now) }
    ensures ordered { IfOk result AreOrdered }
{
    let mut found = FileNames::empty(alloc);
    for name in sorted(alloc, names)?.as_slice() {
        found.push(Octets::of(alloc, name)?)?;
    }
    Ok(found)
}

fn sorted(alloc: Global, names: &[Octets]) -> Result<Vec<&[u8]>, NoMemory>
    ensures same { IfOk result (λ sorted. HaveSame (map (λ one. one.now) sorted.items) names.now) }
    ensures ordered { IfOk result (λ sorted. AreOrdered (map (λ one. one.now) sorted.items)) }
{
    let mut sorted = Vec::new(alloc);
    for name in names {
        sorted.push(name.as_slice())?;
    }
    sorted.sort_unstable();
    sorted.dedup();
    Ok(sorted)
}
