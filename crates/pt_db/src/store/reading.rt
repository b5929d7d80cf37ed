ghost use Rattle.std.specs.Prelude.{◌≡◌, ◌↔◌, true, false, length, All, IfOk, IfErr, IfSome, OnErr, IsErrOf, IsTrue};
ghost use Rattle.std.specs.Option.{option_copied};
ghost use Rattle.pt_disk.specs.Calls.{HasCause, Rests};
ghost use Rattle.pt_stored.specs.Digest.{digest_text};
ghost use Rattle.pt_stored.specs.Entries.{AreInOrder, IsShown, IsWanted};
ghost use Rattle.pt_db.specs.Reading.{AreTheEntries, IsWantedName, IsTheEntry};
ghost use Rattle.pt_db.specs.Refusals.{Dies, IsNoClash, IsOutside};

use crate::{Store, StoreFault};
use pt_choice::Octets;
use pt_disk::Disk;
use pt_stored::{Entries, Entry, digest_text, digests_of};

impl<'d, D: Disk> Store<'d, D> {
    /// The stored entries of this key, in the order of their files' names.
    pub fn fetch(&mut self, key: &[u8]) -> Result<Entries, StoreFault>
        ensures same_reference { self.new.disk.ghost_name ≡ self.old.disk.ghost_name }
        ensures entries { IfOk result (AreTheEntries (Some (digest_text key.now)) (D.tells self.old.disk.now)) }
        ensures ordered { IfOk result AreInOrder }
        ensures shown { IfOk result (All IsShown) }
        ensures of_key { IfOk result (All (λ entry. entry.key ≡ digest_text key.now)) }
        ensures rests { Rests (D.tells self.old.disk.now) (D.tells self.new.disk.now) }
        ensures cause { HasCause (IsErrOf result StoreFault.Disk) (D.faults self.old.disk.now) (D.faults self.new.disk.now) }
        ensures dead { IsErrOf result StoreFault.Dead ↔ (self.old.dead ≡ true) }
        ensures dies { Dies (IsErrOf result StoreFault.Disk) self.old.dead self.new.dead }
        ensures no_clash { IfErr result IsNoClash }
    {
        if self.dead {
            return Err(StoreFault::Dead);
        }
        let digest = digest_text(key);
        self.gathered(Some(digest.as_slice()))
    }

    /// All stored entries, in the order of their files' names.
    pub fn list(&mut self) -> Result<Entries, StoreFault>
        ensures same_reference { self.new.disk.ghost_name ≡ self.old.disk.ghost_name }
        ensures entries { IfOk result (AreTheEntries None (D.tells self.old.disk.now)) }
        ensures ordered { IfOk result AreInOrder }
        ensures shown { IfOk result (All IsShown) }
        ensures rests { Rests (D.tells self.old.disk.now) (D.tells self.new.disk.now) }
        ensures cause { HasCause (IsErrOf result StoreFault.Disk) (D.faults self.old.disk.now) (D.faults self.new.disk.now) }
        ensures dead { IsErrOf result StoreFault.Dead ↔ (self.old.dead ≡ true) }
        ensures dies { Dies (IsErrOf result StoreFault.Disk) self.old.dead self.new.dead }
        ensures no_clash { IfErr result IsNoClash }
    {
        if self.dead {
            return Err(StoreFault::Dead);
        }
        self.gathered(None)
    }

    // The entries of the wanted keys.
    fn gathered(&mut self, wanted: Option<&[u8]>) -> Result<Entries, StoreFault>
        ensures same_reference { self.new.disk.ghost_name ≡ self.old.disk.ghost_name }
        ensures entries { IfOk result (AreTheEntries (option_copied wanted.entry) (D.tells self.old.disk.now)) }
        ensures ordered { IfOk result AreInOrder }
        ensures shown { IfOk result (All IsShown) }
        ensures wanted { IfOk result (All (λ entry. IsWanted (option_copied wanted.entry) entry.key)) }
        ensures rests { Rests (D.tells self.old.disk.now) (D.tells self.new.disk.now) }
        ensures cause { HasCause (IsErrOf result StoreFault.Disk) (D.faults self.old.disk.now) (D.faults self.new.disk.now) }
        ensures dies { Dies (IsErrOf result StoreFault.Disk) self.old.dead self.new.dead }
        ensures outside { IfErr result IsOutside }
    {
        let names = match self.names() {
            Ok(names) => names,
            Err(fault) => return Err(fault),
        };
        let mut entries = Entries::empty(self.alloc);
        for name in names {
            match self.entry(name, wanted) {
                Ok(Some(entry)) => {
                    if entries.push(entry).is_err() {
                        return Err(StoreFault::NoMemory);
                    }
                }
                Ok(None) => {}
                Err(fault) => return Err(fault),
            }
        }
        Ok(entries)
    }

    // The entry of the file of this name, where it is an example of a wanted key.
    fn entry(&mut self, name: Octets, wanted: Option<&[u8]>) -> Result<Option<Entry>, StoreFault>
        ensures same_reference { self.new.disk.ghost_name ≡ self.old.disk.ghost_name }
        ensures its { IfOk result (IsTheEntry (option_copied wanted.entry) (D.tells self.old.disk.now) name) }
        ensures named { IfOk result (λ found. IfSome found (λ entry. (entry.file ≡ name) × IsShown entry × IsWanted (option_copied wanted.entry) entry.key)) }
        ensures rests { Rests (D.tells self.old.disk.now) (D.tells self.new.disk.now) }
        ensures cause { HasCause (IsErrOf result StoreFault.Disk) (D.faults self.old.disk.now) (D.faults self.new.disk.now) }
        ensures dies { Dies (IsErrOf result StoreFault.Disk) self.old.dead self.new.dead }
        ensures outside { IfErr result IsOutside }
    {
        if !is_wanted(name.as_slice(), wanted) {
            return Ok(None);
        }
        match self.read(name.as_slice()) {
            Ok(Some(bytes)) => Ok(Entry::of(self.alloc, name, bytes)?),
            Ok(None) => Ok(None),
            Err(fault) => Err(fault),
        }
    }
}

// Whether the name is that of an example of a wanted key.
fn is_wanted(name: &[u8], wanted: Option<&[u8]>) -> bool
    ensures { IsTrue result ↔ IsWantedName (option_copied wanted.entry) name.now }
{
    let Some((key, _value)) = digests_of(name) else {
        return false;
    };
    match wanted {
        Some(wanted) => key == wanted,
        None => true,
    }
}
