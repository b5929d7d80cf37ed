ghost use Rattle.std.specs.Prelude.{◌≡◌, ◌≤◌, [], Option, List, take, length, IfOk, OnOk};
ghost use Rattle.pt_real.specs.Asked.{Call, Made, Created, Synced, Renamed, Removed, Listed, Unlocked, and_did, and_more, and_gave, and_opened, and_locked};

use pt_disk::{DiskStop, FileNames};
use std::alloc::Global;
use std::io;

/// The calls of the machine on its files and folders, by their paths. At most one file is open, the one that was opened or created last, and at
/// most one lock is held. A call that failed may have done any part of its work, and then what was asked is told no more.
pub trait FileSystem {
    /// What was asked and done, newest first, where the file system tells it.
    ghost asked: { Self → Option (List Call) };

    /// The folder is there.
    fn make_folder(&mut self, folder: &str) -> io::Result<()>
        ensures { OnOk result (asked self.new ≡ and_did (Made folder.now) (asked self.old)) };

    /// Opens a file, or a folder as a file, to be read and synced; false where there is none.
    fn open(&mut self, path: &str) -> io::Result<bool>
        ensures { IfOk result (λ there. asked self.new ≡ and_opened there path.now (asked self.old)) };

    /// Opens a new file in place of what the path had, to be written.
    fn create(&mut self, path: &str) -> io::Result<()>
        ensures { OnOk result (asked self.new ≡ and_did (Created path.now []) (asked self.old)) };

    /// Moves bytes of the open file into the buffer, which is not empty, and answers how many. It is 0 only at the file's end.
    fn read(&mut self, into: &mut [u8]) -> io::Result<usize>
        ensures within { IfOk result (λ n. n ≤ length into.new) }
        ensures gave { IfOk result (λ n. asked self.new ≡ and_gave (take n into.new) (asked self.old)) };

    /// The open file takes a first part of these bytes, and how long that is is answered.
    fn write(&mut self, from: &[u8]) -> io::Result<usize>
        ensures within { IfOk result (λ n. n ≤ length from.now) }
        ensures took { IfOk result (λ n. asked self.new ≡ and_more (take n from.now) (asked self.old)) };

    /// All of the open file is stable.
    fn sync(&mut self) -> io::Result<()>
        ensures { OnOk result (asked self.new ≡ and_did Synced (asked self.old)) };

    fn rename(&mut self, from: &str, to: &str) -> io::Result<()>
        ensures { OnOk result (asked self.new ≡ and_did (Renamed from.now to.now) (asked self.old)) };

    /// The file is absent, if it was there or not.
    fn remove(&mut self, path: &str) -> io::Result<()>
        ensures { OnOk result (asked self.new ≡ and_did (Removed path.now) (asked self.old)) };

    /// The names of what is in a folder, as they come. One that is no text is left out.
    fn list(&mut self, alloc: Global, folder: &str) -> Result<FileNames, DiskStop>
        ensures { IfOk result (λ names. asked self.new ≡ and_did (Listed folder.now names) (asked self.old)) };

    /// Takes the lock of a folder, which others may hold: then false. It lasts until `unlock`, or until the file system is dropped.
    fn try_lock(&mut self, folder: &str) -> io::Result<bool>
        ensures { IfOk result (λ took. asked self.new ≡ and_locked took folder.now (asked self.old)) };

    fn unlock(&mut self)
        ensures { asked self.new ≡ and_did Unlocked (asked self.old) };

    /// Lets a short time pass.
    fn pause(&mut self)
        ensures { asked self.new ≡ asked self.old };
}
