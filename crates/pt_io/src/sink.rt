ghost use Rattle.std.specs.Prelude.{◌≡◌, ◌≤◌, OnOk, OnErr};
ghost use Rattle.pt_choice.specs.Faults.{Rose};
ghost use Rattle.pt_io.specs.Sink.{Written, Wrote, Appends, AppendsPart};

use crate::IoFailed;

/// An output that is written in pieces. It counts the calls that failed, as `Files` does.
pub trait Sink {
    /// The faults, and the bytes that it was given, where it tells them.
    ghost shows: { Self → Written };

    /// Takes a first part of these bytes, and answers how many: at least one, where there is one.
    fn write(&mut self, from: &[u8]) -> Result<usize, IoFailed>
        ensures wrote { Wrote (shows self.old) from.now result (shows self.new) };
}

/// Writes all of these bytes. After a failure a first part of them was written. It never answers for want of memory,
/// and is passed no allocator.
pub fn write_all<K: Sink>(sink: &mut K, from: &[u8]) -> Result<(), IoFailed>
    ensures all { OnOk result (Appends (K.shows sink.old).bytes from.now (K.shows sink.new).bytes) }
    ensures quiet { OnOk result ((K.shows sink.new).faults ≡ (K.shows sink.old).faults) }

    ensures part { OnErr result (AppendsPart (K.shows sink.old).bytes from.now (K.shows sink.new).bytes) }
    ensures cause { OnErr result (Rose (K.shows sink.old).faults (K.shows sink.new).faults) }

    ensures later { (K.shows sink.old).faults ≤ (K.shows sink.new).faults }
{
    let mut done = 0;
    while done < from.len() {
        let Ok(n) = sink.write(&from[done..]) else {
            return Err(IoFailed);
        };
        done += n;
    }
    Ok(())
}
