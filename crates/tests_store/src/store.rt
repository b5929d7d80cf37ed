//! Calls of a store as text: `save abc 12` stores the value `12` under the key `abc`.

ghost use Rattle.std.specs.Prelude.{◌≡◌, false, IfOk};

use pt_db::{Store, StoreFault};
use pt_disk::MemoryDisk;
use pt_stored::{Entries, MAX_VALUE};
use std::alloc::{AllocError, Global};
use std::test::Fail;

/// The store of this folder.
pub fn attached(alloc: Global, disk: &mut MemoryDisk) -> Result<Store<'_, MemoryDisk>, Fail>
    ensures { IfOk result (λ store. store.dead ≡ false) }
{
    match Store::attach(alloc, disk) {
        Ok(store) => Ok(store),
        Err(_lost) => Err(Fail::from("not attached")),
    }
}

/// What a call of a store answers, as text: `save KEY VALUE`, `delete KEY VALUE`, `fetch KEY` or `list`.
pub fn answer(
    alloc: Global,
    store: &mut Store<'_, MemoryDisk>,
    call: &str,
) -> Result<Vec<u8>, AllocError> {
    let mut words = call.split(' ');
    let verb = words.next().unwrap_or("");
    let key = words.next().unwrap_or("").as_bytes();
    let value = words.next().unwrap_or("").as_bytes();
    match verb {
        "save" if value.len() <= MAX_VALUE => done(alloc, store.save(key, value)),
        "delete" => done(alloc, store.delete(key, value)),
        "fetch" => listed(alloc, store.fetch(key)),
        _ => listed(alloc, store.list()),
    }
}

fn done(alloc: Global, answer: Result<(), StoreFault>) -> Result<Vec<u8>, AllocError> {
    let text = match &answer {
        Ok(()) => "ok",
        Err(fault) => word(fault),
    };
    Vec::from_slice(alloc, text.as_bytes())
}

// The values in their order; `-` where there are none.
fn listed(alloc: Global, answer: Result<Entries, StoreFault>) -> Result<Vec<u8>, AllocError> {
    match &answer {
        Ok(entries) => values_of(alloc, entries),
        Err(fault) => Vec::from_slice(alloc, word(fault).as_bytes()),
    }
}

fn values_of(alloc: Global, entries: &Entries) -> Result<Vec<u8>, AllocError> {
    let mut text = Vec::new(alloc);
    for entry in entries.as_slice() {
        if !text.is_empty() {
            text.push(b' ')?;
        }
        text.extend_from_slice(entry.bytes.as_slice())?;
    }
    if text.is_empty() {
        text.push(b'-')?;
    }
    Ok(text)
}

fn word(fault: &StoreFault) -> &'static str {
    match fault {
        StoreFault::Disk => "disk",
        StoreFault::Dead => "dead",
        StoreFault::Clash { .. } => "clash",
        StoreFault::NoMemory => "no memory",
    }
}
