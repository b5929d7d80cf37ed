ghost use Rattle.std.specs.Prelude.{◌≡◌, ◌≤◌, ◌⊎◌, true, false, All, None, IfOk, IfErr, OnErr, IsErrOf};
ghost use Rattle.pt_db.specs.Attaching.{Attached};
ghost use Rattle.pt_db.specs.Reading.{AreTheEntries};
ghost use Rattle.pt_db.specs.Refusals.{IsOutside};
ghost use Rattle.pt_disk.specs.Calls.{HasCause};
ghost use Rattle.pt_disk.specs.Moments.{BothTell};
ghost use Rattle.pt_stored.specs.Entries.{AreInOrder, IsShown};
ghost use Rattle.pt_turns.specs.Scene.{disk_shown};
ghost use Rattle.pt_commands.specs.Ends.{Lists};
ghost use Rattle.pt_commands.specs.Message.{Tells};
ghost use Rattle.pt_commands.specs.declared.message.Message.{Message};

use crate::telling::tell;
use crate::{Finish, Message};
use pt_choice::NoMemory;
use pt_db::{Store, StoreFault};
use pt_disk::Disk;
use pt_io::Sink;
use pt_report::Refusal;
use pt_stored::Entries;
use std::alloc::Global;

/// Lists what the database holds.
pub fn list<D: Disk, K: Sink>(alloc: Global, disk: &mut D, sink: &mut K) -> Result<Finish, NoMemory>
    ensures lists { IfOk result (λ finish. (message : Message)
        × Lists (disk_shown (D.faults disk.old) (D.tells disk.old)) (disk_shown (D.faults disk.new) (D.tells disk.new)) message
        × Tells message finish (K.shows sink.old) (K.shows sink.new)) }
    ensures settled { OnErr result (BothTell (Attached true) (D.tells disk.old) (D.tells disk.new)) }
    ensures quiet { OnErr result (D.faults disk.new ≡ D.faults disk.old) }
    ensures nothing { OnErr result (sink.new ≡ sink.old) }
    ensures later { (K.shows sink.old).faults ≤ (K.shows sink.new).faults }
    ensures later_disk { D.faults disk.old ≤ D.faults disk.new }
{
    match entries_in(alloc, disk) {
        Ok(entries) => tell(alloc, sink, Message::Listed(entries)),
        Err(StoreFault::NoMemory) => Err(NoMemory),
        Err(_) => tell(alloc, sink, Message::Refused(Refusal::Database)),
    }
}

// Settles the folder, and reads all of its entries.
fn entries_in<D: Disk>(alloc: Global, disk: &mut D) -> Result<Entries, StoreFault>
    ensures entries { IfOk result (AreTheEntries None (D.tells disk.old)) }
    ensures ordered { IfOk result AreInOrder }
    ensures shown { IfOk result (All IsShown) }
    ensures settled { BothTell (Attached true) (D.tells disk.old) (D.tells disk.new)
        ⊎ (IsErrOf result StoreFault.Disk × BothTell (Attached false) (D.tells disk.old) (D.tells disk.new)) }
    ensures cause { HasCause (IsErrOf result StoreFault.Disk) (D.faults disk.old) (D.faults disk.new) }
    ensures outside { IfErr result IsOutside }
{
    match Store::attach(alloc, disk) {
        Ok(mut store) => {
            let listed = store.list();
            store.close();
            listed
        }
        Err(_lost) => Err(StoreFault::Disk),
    }
}
