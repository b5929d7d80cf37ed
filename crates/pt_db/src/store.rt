mod reading;
mod saving;

ghost use Rattle.std.specs.Prelude.{◌≡◌, ◌↔◌, ◌+◌, true, false, is_ok, IsErr, IfOk, IfErr, IsErrOf, ⊤};
ghost use Rattle.pt_disk.specs.Moments.{BothTell};
ghost use Rattle.pt_disk.specs.Calls.{HasCause, Rests, AreNames, AreOrdered, IsFirstPart};
ghost use Rattle.pt_db.specs.declared.fault.StoreFault.TheVariants as fault;
ghost use Rattle.pt_db.specs.Attaching.{Attached};
ghost use Rattle.pt_db.specs.Refusals.{Dies, IsOutside};

use crate::StoreFault;
use pt_choice::Octets;
use pt_disk::{Disk, DiskFailed, DiskStop, FileNames};
use pt_stored::MAX_VALUE;
use std::alloc::Global;

/// The examples that are kept in a folder.
///
/// Once a call of the disk failed, a store answers `Dead` alone: close it, and attach the folder again.
#[derive(Drop)]
pub struct Store<'d, D: Disk> {
    disk: &'d mut D,
    alloc: Global,
    dead: bool,
}

/// A disk that failed to settle. It is handed back, and may be attached again.
#[derive(Drop)]
pub struct NotAttached<'d, D: Disk> {
    pub disk: &'d mut D,
}

impl<'d, D: Disk> Store<'d, D> {
    /// Settles the folder, and changes nothing else.
    pub fn attach(alloc: Global, disk: &'d mut D) -> Result<Store<'d, D>, NotAttached<'d, D>>
        ensures same_reference { IfOk result (λ store. store.disk.ghost_name ≡ disk.entry.ghost_name) }
        ensures attached { IfOk result (λ store. BothTell (Attached true) (D.tells disk.old) (D.tells store.disk.now)) }
        ensures quiet { IfOk result (λ store. D.faults store.disk.now ≡ D.faults disk.old) }
        ensures alive { IfOk result (λ store. store.dead ≡ false) }
        ensures handed_back { IfErr result (λ lost. lost.disk.ghost_name ≡ disk.entry.ghost_name) }
        ensures failed { IfErr result (λ lost. BothTell (Attached false) (D.tells disk.old) (D.tells lost.disk.now)) }
        ensures cause { IfErr result (λ lost. HasCause ⊤ (D.faults disk.old) (D.faults lost.disk.now)) }
    {
        if settle(disk).is_err() {
            return Err(NotAttached { disk });
        }
        Ok(Store {
            disk,
            alloc,
            dead: false,
        })
    }

    /// Ends the store, with no call of the disk.
    pub fn close(self)
        ensures { self.exit.0.now ≡ self.entry.disk.now }
    {
        let Store {
            disk: _disk,
            alloc: _alloc,
            dead: _dead,
        } = self;
    }

    // The names of all files.
    fn names(&mut self) -> Result<FileNames, StoreFault>
        ensures same_reference { self.new.disk.ghost_name ≡ self.old.disk.ghost_name }
        ensures all { IfOk result (AreNames (D.tells self.old.disk.now)) }
        ensures ordered { IfOk result AreOrdered }
        ensures rests { Rests (D.tells self.old.disk.now) (D.tells self.new.disk.now) }
        ensures cause { HasCause (IsErrOf result StoreFault.Disk) (D.faults self.old.disk.now) (D.faults self.new.disk.now) }
        ensures dies { Dies (IsErrOf result StoreFault.Disk) self.old.dead self.new.dead }
        ensures outside { IfErr result IsOutside }
    {
        match self.disk.names(self.alloc) {
            Ok(names) => Ok(names),
            Err(stop) => Err(self.stopped(stop)),
        }
    }

    // The file of this name, or its first bytes where it has more than a value.
    fn read(&mut self, name: &[u8]) -> Result<Option<Octets>, StoreFault>
        ensures same_reference { self.new.disk.ghost_name ≡ self.old.disk.ghost_name }
        ensures part { IfOk result (IsFirstPart (D.tells self.old.disk.now) name.now (MAX_VALUE + 1)) }
        ensures rests { Rests (D.tells self.old.disk.now) (D.tells self.new.disk.now) }
        ensures cause { HasCause (IsErrOf result StoreFault.Disk) (D.faults self.old.disk.now) (D.faults self.new.disk.now) }
        ensures dies { Dies (IsErrOf result StoreFault.Disk) self.old.dead self.new.dead }
        ensures outside { IfErr result IsOutside }
    {
        match self.disk.read(self.alloc, name, MAX_VALUE + 1) {
            Ok(read) => Ok(read),
            Err(stop) => Err(self.stopped(stop)),
        }
    }

    // A call of the disk gave no answer. One that failed ends the store.
    fn stopped(&mut self, stop: DiskStop) -> StoreFault
        ensures same_reference { self.new.disk.ghost_name ≡ self.old.disk.ghost_name }
        ensures same { self.new.disk.now ≡ self.old.disk.now }
        ensures failed { (result ≡ fault.Disk) ↔ (stop ≡ DiskStop.Failed) }
        ensures dies { Dies (result ≡ fault.Disk) self.old.dead self.new.dead }
        ensures outside { IsOutside result }
    {
        match stop {
            DiskStop::Failed => {
                self.dead = true;
                StoreFault::Disk
            }
            DiskStop::NoMemory => StoreFault::NoMemory,
        }
    }

    // A changing call of the disk. One that failed ends the store.
    fn checked(&mut self, done: Result<(), DiskFailed>) -> Result<(), StoreFault>
        ensures same_reference { self.new.disk.ghost_name ≡ self.old.disk.ghost_name }
        ensures same { self.new.disk.now ≡ self.old.disk.now }
        ensures ok { is_ok result ≡ is_ok done }
        ensures fault { IfErr result (λ refusal. refusal ≡ fault.Disk) }
        ensures dies { Dies (IsErrOf result StoreFault.Disk) self.old.dead self.new.dead }
    {
        if done.is_err() {
            self.dead = true;
            return Err(StoreFault::Disk);
        }
        Ok(())
    }
}

fn settle<D: Disk>(disk: &mut D) -> Result<(), DiskFailed>
    ensures attached { BothTell (Attached (is_ok result)) (D.tells disk.old) (D.tells disk.new) }
    ensures cause { HasCause (IsErr result) (D.faults disk.old) (D.faults disk.new) }
{
    disk.settle()
}
