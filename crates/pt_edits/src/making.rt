ghost use Rattle.std.specs.Prelude.{◌≡◌, false, [], ◌∷◌, map, All, is_ok, IfErr, OnOk, IsErrOf};
ghost use Rattle.pt_disk.specs.Calls.{HasCause};
ghost use Rattle.pt_disk.specs.Moments.{BothTell};
ghost use Rattle.pt_stored.specs.Digest.{digest_text};
ghost use Rattle.pt_edits.specs.Clash.{ClashesIn};
ghost use Rattle.pt_edits.specs.Made.{Made};
ghost use Rattle.pt_edits.specs.Pairs.{under};
ghost use Rattle.pt_edits.specs.Short.{IsShortEdit};
ghost use Rattle.pt_edits.specs.Stops.{IsDeadAfter};

use crate::answer::answer_of;
use crate::{Edit, Edits, StoreStop};
use pt_db::Store;
use pt_disk::Disk;

/// Makes these edits of what is stored under the key, in order.
pub fn make_edits<D: Disk>(
    store: &mut Store<'_, D>,
    key: &[u8],
    edits: &Edits,
) -> Result<(), StoreStop>
    requires alive { store.old.dead ≡ false }
    requires short { All IsShortEdit edits.now }
    ensures same_reference { store.new.disk.ghost_name ≡ store.old.disk.ghost_name }
    ensures made { BothTell (Made (map (under (digest_text key.now)) edits.now) (is_ok result)) (D.tells store.old.disk.now) (D.tells store.new.disk.now) }
    ensures clash { IfErr result (ClashesIn (map (under (digest_text key.now)) edits.now) (D.tells store.old.disk.now)) }
    ensures cause { HasCause (IsErrOf result StoreStop.Failed) (D.faults store.old.disk.now) (D.faults store.new.disk.now) }
    ensures alive { OnOk result (store.new.dead ≡ false) }
    ensures dead { IfErr result (IsDeadAfter store.new.dead) }
{
    for edit in edits.as_slice() {
        match make_edit(store, key, edit) {
            Ok(()) => {}
            Err(stop) => return Err(stop),
        }
    }
    Ok(())
}

// Makes this edit.
fn make_edit<D: Disk>(store: &mut Store<'_, D>, key: &[u8], edit: &Edit) -> Result<(), StoreStop>
    requires alive { store.old.dead ≡ false }
    requires short { IsShortEdit edit.now }
    ensures same_reference { store.new.disk.ghost_name ≡ store.old.disk.ghost_name }
    ensures made { BothTell (Made (under (digest_text key.now) edit.now ∷ []) (is_ok result)) (D.tells store.old.disk.now) (D.tells store.new.disk.now) }
    ensures clash { IfErr result (ClashesIn (under (digest_text key.now) edit.now ∷ []) (D.tells store.old.disk.now)) }
    ensures cause { HasCause (IsErrOf result StoreStop.Failed) (D.faults store.old.disk.now) (D.faults store.new.disk.now) }
    ensures alive { OnOk result (store.new.dead ≡ false) }
    ensures dead { IfErr result (IsDeadAfter store.new.dead) }
{
    match edit {
        Edit::Save(value) => answer_of(store.save(key, value.as_slice())),
        Edit::Delete(value) => answer_of(store.delete(key, value.as_slice())),
    }
}
