ghost use Rattle.std.specs.Prelude.{◌≡◌, ◌≢◌, ◌↔◌, ◌⊎◌, ◌++◌, [], length, take, drop, is_ok, IsErr, OnOk, OnErr, IfOk, IfSome, IfNone, IsSomeAnd, min, None, Some, AllPairs, refl};
ghost use Rattle.pt_io.specs.Files.{Chose, Moved};
ghost use Rattle.pt_io.specs.FilesInMemory.{
  shown,
  content_of,
  bytes_at,
  after_choose,
  after_no_choose,
  after_read,
  after_no_read,
  FailsNext,
};

use crate::{Files, IoFailed};
use pt_choice::{Octets, Seq};
use std::marker::Model;

/// Names with the bytes of each.
pub type NamedFiles = Seq<(Octets, Octets)>;

/// The numbers, from 1, of the calls that are to fail.
pub type Calls = Seq<u64>;

/// Files in memory, which tell everything. A call never fails for want of memory.
#[derive(Debug, Drop)]
pub struct MemoryFiles {
    files: NamedFiles,
    failing: Calls,
    calls: u64,
    chosen: u64,
    // The chosen file's place in `files`, or their number, and how much of it was read.
    place: usize,
    at: usize,
    faults: u64,
}

impl Model for MemoryFiles {
    ghost use Rattle.pt_io.specs.FilesInMemory.{FilesInMemory};

    ghost Value = { FilesInMemory };

    ghost use Rattle.std.specs.Prelude.{◌≤◌, length, drop};
    ghost use Rattle.pt_io.specs.FilesInMemory.{bytes_at};

    ghost view = { λ m. record { files = m.files; failing = m.failing; calls = m.calls; chosen = m.chosen; left = drop m.at (bytes_at m.files m.place); faults = m.faults } };

    ghost invariant = { λ m. m.at ≤ length (bytes_at m.files m.place) };
}

impl MemoryFiles {
    /// These files, of which none is chosen. The calls with these numbers will fail.
    pub fn of(files: NamedFiles, failing: Calls) -> MemoryFiles
        requires { AllPairs (λ one other. one.0 ≢ other.0) files }
        ensures { result ≡ record { files = files; failing = failing; calls = 0; chosen = 0; left = []; faults = 0 } }
    {
        let place = files.len();
        MemoryFiles {
            files,
            failing,
            calls: 0,
            chosen: 0,
            place,
            at: 0,
            faults: 0,
        }
    }
}

impl Files for MemoryFiles {
    ghost shows = { shown };

    ghost tells_left = { λ files told. refl };

    ghost tells_files = { λ files steady. refl };

    fn choose(&mut self, name: &str) -> Result<(), IoFailed>
        ensures chose { Chose (shown self.old) name.now (is_ok result) (shown self.new) }
        ensures fails { IsErr result ↔ (FailsNext self.old ⊎ (content_of self.old.files name.now ≡ None)) }
        ensures ok { OnOk result (IsSomeAnd (content_of self.old.files name.now) (λ bytes. self.new ≡ after_choose self.old bytes)) }
        ensures failed { OnErr result (self.new ≡ after_no_choose self.old) }
    {
        self.calls = self.calls.saturating_add(1);
        self.chosen = self.chosen.saturating_add(1);
        self.at = 0;
        if !self.failing.as_slice().contains(&self.calls) {
            if let Some(place) = place_of(self.files.as_slice(), name.as_bytes()) {
                self.place = place;
                return Ok(());
            }
        }
        self.place = self.files.len();
        self.faults = self.faults.saturating_add(1);
        Err(IoFailed)
    }

    fn read(&mut self, into: &mut [u8]) -> Result<usize, IoFailed>
        ensures moved { Moved (shown self.old) into.old result into.new (shown self.new) }
        ensures fails { IsErr result ↔ FailsNext self.old }
        ensures most { IfOk result (λ n. n ≡ min (length into.old) (length self.old.left)) }
        ensures ok { IfOk result (λ n. self.new ≡ after_read self.old n) }
        ensures failed { OnErr result ((self.new ≡ after_no_read self.old) × (into.new ≡ into.old)) }
    {
        self.calls = self.calls.saturating_add(1);
        if self.failing.as_slice().contains(&self.calls) {
            self.faults = self.faults.saturating_add(1);
            return Err(IoFailed);
        }
        let bytes = bytes_at(self.files.as_slice(), self.place);
        let n = copy_first(&bytes[self.at..], into);
        self.at += n;
        Ok(n)
    }
}

// The place of the first file of this name.
fn place_of(files: &[(Octets, Octets)], name: &[u8]) -> Option<usize>
    ensures found { IfSome result (λ place. content_of files.now name.now ≡ Some (bytes_at files.now place)) }
    ensures absent { IfNone result (content_of files.now name.now ≡ None) }
{
    for (place, file) in files.iter().enumerate() {
        if file.0.as_slice() == name {
            return Some(place);
        }
    }
    None
}

// The bytes of the file at a place, and none past the last.
fn bytes_at(files: &[(Octets, Octets)], place: usize) -> &[u8]
    ensures { result.now ≡ bytes_at files.now place }
{
    match files.get(place) {
        Some(file) => file.1.as_slice(),
        None => &[],
    }
}

// Copies as many bytes as fit, and answers how many.
fn copy_first(from: &[u8], into: &mut [u8]) -> usize
    ensures most { result ≡ min (length into.old) (length from.now) }
    ensures copied { into.new ≡ take result from.now ++ drop result into.old }
{
    let n = into.len().min(from.len());
    into[..n].copy_from_slice(&from[..n]);
    n
}
