ghost use Rattle.std.specs.Prelude.{◌≡◌, true, IsSome, is_ok};
ghost use Rattle.pt_io.specs.Files.{Shown, Chose, Moved};

/// A call of the outside that failed. The object that it was asked of has counted it.
#[derive(Clone, Copy, Debug, PartialEq, Eq)]
pub struct IoFailed;

/// Files that are chosen by name and read in pieces. A call after a failed one is allowed.
///
/// An object counts the calls that failed, and how many times a file was chosen, as `u64`s that stand still at their
/// greatest value. A call that answers counts no fault.
pub trait Files {
    /// The two counts, and what is told of the files and of the bytes that are left.
    ghost shows: { Self → Shown };

    /// Chooses the file of this name, to be read from its start. After a failure nothing is chosen.
    fn choose(&mut self, name: &str) -> Result<(), IoFailed>
        ensures chose { Chose (shows self.old) name.now (is_ok result) (shows self.new) };

    /// Moves bytes of the chosen file into the buffer, and answers how many. It is 0 only at the end of the file,
    /// or where the buffer is empty.
    fn read(&mut self, into: &mut [u8]) -> Result<usize, IoFailed>
        ensures moved { Moved (shows self.old) into.old result into.new (shows self.new) };

    /// An object that tells its files tells what is left.
    ghost tells_left: { (files : Self) → IsSome (shows files).named → IsSome (shows files).left };

    /// A steady object tells its files.
    ghost tells_files: { (files : Self) → (shows files).steady ≡ true → IsSome (shows files).named };
}
