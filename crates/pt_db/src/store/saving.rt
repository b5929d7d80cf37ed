ghost use Rattle.std.specs.Prelude.{◌≡◌, ◌≢◌, ◌≤◌, ◌⊎◌, ◌↔◌, true, false, length, is_ok, IsErr, IfOk, IfErr, OnOk, OnErr, IsErrOf, Some, None};
ghost use Rattle.pt_disk.specs.Calls.{HasCause, Rests};
ghost use Rattle.pt_stored.specs.Digest.{digest_text};
ghost use Rattle.pt_stored.specs.Stored.{pending, IsStored};
ghost use Rattle.pt_db.specs.declared.fault.StoreFault.TheVariants as fault;
ghost use Rattle.pt_db.specs.Editing.{Saves, Deletes, RestsWhere, IsSameOr, name_of, saved_as, removed};
ghost use Rattle.pt_db.specs.Reading.{Holds, IsFree};
ghost use Rattle.pt_db.specs.Refusals.{Dies, ShowsClash, HasNoClash, IsNoDeath};
ghost use Rattle.pt_db.specs.Writing.{Reaches};

use crate::{Store, StoreFault};
use pt_choice::Octets;
use pt_disk::Disk;
use pt_stored::{MAX_VALUE, are_alike, file_name};

// The name under which bytes lie until they are stable. It is the name of no example.
const PENDING: &[u8] = b"pending";

impl<'d, D: Disk> Store<'d, D> {
    /// Stores this value under the key. Where it was stored before, nothing is written.
    pub fn save(&mut self, key: &[u8], value: &[u8]) -> Result<(), StoreFault>
        requires { length value.now ≤ MAX_VALUE }
        ensures same_reference { self.new.disk.ghost_name ≡ self.old.disk.ghost_name }
        ensures edits { Saves key.now value.now (is_ok result) (D.tells self.old.disk.now) (D.tells self.new.disk.now) }
        ensures calls { OnOk result (IsSameOr (saved_as (name_of key.now value.now) value.now) (D.tells self.old.disk.now) (D.tells self.new.disk.now)) }
        ensures unwritten { RestsWhere (λ files. IsStored files (digest_text key.now) value.now) (D.tells self.old.disk.now) (D.tells self.new.disk.now) }
        ensures unchanged { OnErr result (IsErrOf result StoreFault.Disk ⊎ Rests (D.tells self.old.disk.now) (D.tells self.new.disk.now)) }
        ensures cause { HasCause (IsErrOf result StoreFault.Disk) (D.faults self.old.disk.now) (D.faults self.new.disk.now) }
        ensures dead { IsErrOf result StoreFault.Dead ↔ (self.old.dead ≡ true) }
        ensures dies { Dies (IsErrOf result StoreFault.Disk) self.old.dead self.new.dead }
        ensures clash { IfErr result (ShowsClash (D.tells self.old.disk.now) (name_of key.now value.now) value.now) }
        ensures no_clash { OnOk result (HasNoClash (D.tells self.old.disk.now) (name_of key.now value.now) value.now) }
    {
        if self.dead {
            return Err(StoreFault::Dead);
        }
        let name = file_name(self.alloc, key, value)?;
        match self.holds(name.as_slice(), value) {
            Ok(true) => Ok(()),
            Ok(false) => self.write(name.as_slice(), value),
            Err(fault) => Err(fault),
        }
    }

    /// Removes this value of the key. Where it was not stored, nothing is written.
    pub fn delete(&mut self, key: &[u8], value: &[u8]) -> Result<(), StoreFault>
        ensures same_reference { self.new.disk.ghost_name ≡ self.old.disk.ghost_name }
        ensures edits { Deletes key.now value.now (is_ok result) (D.tells self.old.disk.now) (D.tells self.new.disk.now) }
        ensures calls { OnOk result (IsSameOr (removed (name_of key.now value.now)) (D.tells self.old.disk.now) (D.tells self.new.disk.now)) }
        ensures unwritten { RestsWhere (λ files. ¬ IsStored files (digest_text key.now) value.now) (D.tells self.old.disk.now) (D.tells self.new.disk.now) }
        ensures unchanged { OnErr result (IsErrOf result StoreFault.Disk ⊎ Rests (D.tells self.old.disk.now) (D.tells self.new.disk.now)) }
        ensures cause { HasCause (IsErrOf result StoreFault.Disk) (D.faults self.old.disk.now) (D.faults self.new.disk.now) }
        ensures dead { IsErrOf result StoreFault.Dead ↔ (self.old.dead ≡ true) }
        ensures dies { Dies (IsErrOf result StoreFault.Disk) self.old.dead self.new.dead }
        ensures clash { IfErr result (ShowsClash (D.tells self.old.disk.now) (name_of key.now value.now) value.now) }
        ensures no_clash { OnOk result (HasNoClash (D.tells self.old.disk.now) (name_of key.now value.now) value.now) }
    {
        if self.dead {
            return Err(StoreFault::Dead);
        }
        let name = file_name(self.alloc, key, value)?;
        match self.holds(name.as_slice(), value) {
            Ok(true) => self.erase(name.as_slice()),
            Ok(false) => Ok(()),
            Err(fault) => Err(fault),
        }
    }

    // Whether the file of this name has these bytes, no more than a value has. It is a clash where it has others of the same digest.
    fn holds(&mut self, name: &[u8], value: &[u8]) -> Result<bool, StoreFault>
        ensures same_reference { self.new.disk.ghost_name ≡ self.old.disk.ghost_name }
        ensures held { IfOk result (λ held. held ≡ true → Holds (D.tells self.old.disk.now) name.now value.now × (length value.now ≤ MAX_VALUE)) }
        ensures free { IfOk result (λ held. held ≡ false → IsFree (D.tells self.old.disk.now) name.now value.now) }
        ensures clash { IfErr result (ShowsClash (D.tells self.old.disk.now) name.now value.now) }
        ensures rests { Rests (D.tells self.old.disk.now) (D.tells self.new.disk.now) }
        ensures cause { HasCause (IsErrOf result StoreFault.Disk) (D.faults self.old.disk.now) (D.faults self.new.disk.now) }
        ensures dies { Dies (IsErrOf result StoreFault.Disk) self.old.dead self.new.dead }
        ensures no_death { IfErr result IsNoDeath }
    {
        let kept = match self.read(name) {
            Ok(Some(kept)) => kept,
            Ok(None) => return Ok(false),
            Err(fault) => return Err(fault),
        };
        if kept.len() > MAX_VALUE {
            return Ok(false);
        }
        if kept.as_slice() == value {
            return Ok(true);
        }
        if !are_alike(kept.as_slice(), value) {
            return Ok(false);
        }
        let offered = Octets::of(self.alloc, value)?;
        Err(StoreFault::Clash { kept, offered })
    }

    // Writes a file under this name, in the place of one that is there.
    fn write(&mut self, name: &[u8], bytes: &[u8]) -> Result<(), StoreFault>
        requires { name.now ≢ pending }
        ensures same_reference { self.new.disk.ghost_name ≡ self.old.disk.ghost_name }
        ensures written { Reaches name.now (Some bytes.now) (saved_as name.now bytes.now) (is_ok result) (D.tells self.old.disk.now) (D.tells self.new.disk.now) }
        ensures cause { HasCause (IsErr result) (D.faults self.old.disk.now) (D.faults self.new.disk.now) }
        ensures fault { IfErr result (λ refusal. refusal ≡ fault.Disk) }
        ensures dies { Dies (IsErr result) self.old.dead self.new.dead }
    {
        let put = self.disk.put(PENDING, bytes);
        self.checked(put)?;
        let synced = self.disk.sync(PENDING);
        self.checked(synced)?;
        let renamed = self.disk.rename(PENDING, name);
        self.checked(renamed)?;
        let settled = self.disk.settle();
        self.checked(settled)
    }

    // Removes the file of this name.
    fn erase(&mut self, name: &[u8]) -> Result<(), StoreFault>
        ensures same_reference { self.new.disk.ghost_name ≡ self.old.disk.ghost_name }
        ensures written { Reaches name.now None (removed name.now) (is_ok result) (D.tells self.old.disk.now) (D.tells self.new.disk.now) }
        ensures cause { HasCause (IsErr result) (D.faults self.old.disk.now) (D.faults self.new.disk.now) }
        ensures fault { IfErr result (λ refusal. refusal ≡ fault.Disk) }
        ensures dies { Dies (IsErr result) self.old.dead self.new.dead }
    {
        let removed = self.disk.remove(name);
        self.checked(removed)?;
        let settled = self.disk.settle();
        self.checked(settled)
    }
}
