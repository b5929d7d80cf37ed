ghost use Rattle.std.specs.Prelude.{◌≡◌, ◌≤◌, false, map, length, All, IfOk, IfErr, IfSome, OnOk, IsErrOf};
ghost use Rattle.pt_disk.specs.Calls.{HasCause, Rests};
ghost use Rattle.pt_disk.specs.Folder.{reads};
ghost use Rattle.pt_disk.specs.Moments.{now};
ghost use Rattle.pt_stored.specs.Digest.{digest_text};
ghost use Rattle.pt_stored.specs.Entries.{IsShown};
ghost use Rattle.pt_stored.specs.Stored.{IsStored};
ghost use Rattle.pt_edits.specs.Clash.{IsNoClash};
ghost use Rattle.pt_edits.specs.Readings.{AreOfKey, AreInFileOrder, IsSpelled, IsWritableReading};
ghost use Rattle.pt_edits.specs.Stops.{IsDeadAfter};

use crate::answer::stop_of;
use crate::{Reading, Readings, StoreStop};
use pt_choice::NoMemory;
use pt_db::Store;
use pt_disk::Disk;
use pt_stored::{Entries, Entry, MAX_VALUE};
use pt_wire::unpack;
use std::alloc::Global;

/// What is stored under this key, read in version 2 or else in version 1. The folder stays as it is.
pub fn read_stored<D: Disk>(
    alloc: Global,
    store: &mut Store<'_, D>,
    key: &[u8],
) -> Result<Readings, StoreStop>
    requires alive { store.old.dead ≡ false }
    ensures same_reference { store.new.disk.ghost_name ≡ store.old.disk.ghost_name }
    ensures of_key { IfOk result (λ readings. IfSome (D.tells store.old.disk.now) (λ told.
        AreOfKey (IsStored (reads (now told))) (digest_text key.now) readings)) }
    ensures ordered { IfOk result (AreInFileOrder (digest_text key.now)) }
    ensures spelled { IfOk result (All IsSpelled) }
    ensures writable { IfOk result (All IsWritableReading) }
    ensures rests { Rests (D.tells store.old.disk.now) (D.tells store.new.disk.now) }
    ensures cause { HasCause (IsErrOf result StoreStop.Failed) (D.faults store.old.disk.now) (D.faults store.new.disk.now) }
    ensures alive { OnOk result (store.new.dead ≡ false) }
    ensures dead { IfErr result (IsDeadAfter store.new.dead) }
    ensures no_clash { IfErr result IsNoClash }
{
    match store.fetch(key) {
        Ok(entries) => Ok(readings_of(alloc, entries)?),
        Err(fault) => Err(stop_of(fault)),
    }
}

// The readings of these entries, in order.
fn readings_of(alloc: Global, entries: Entries) -> Result<Readings, NoMemory>
    requires shown { All IsShown entries }
    ensures values { IfOk result (λ readings. map (λ reading. reading.bytes) readings ≡ map (λ entry. entry.bytes) entries) }
    ensures spelled { IfOk result (All IsSpelled) }
    ensures writable { IfOk result (All IsWritableReading) }
{
    let mut readings = Readings::empty(alloc);
    for entry in entries {
        readings.push(reading_of(alloc, entry)?)?;
    }
    Ok(readings)
}

// What the entry's value spells.
fn reading_of(alloc: Global, entry: Entry) -> Result<Reading, NoMemory>
    requires short { length entry.bytes ≤ MAX_VALUE }
    ensures value { IfOk result (λ reading. reading.bytes ≡ entry.bytes) }
    ensures spelled { IfOk result IsSpelled }
    ensures writable { IfOk result IsWritableReading }
{
    let unpacked = unpack(alloc, entry.bytes.as_slice())?;
    Ok(Reading {
        bytes: entry.bytes,
        unpacked,
    })
}
