// What files that were stable, and then these changes, come to. Each walk goes from the newest change back.
ghost use Rattle.std.specs.Prelude.{◌≡◌, ◌↔◌, ℕ, List, Contains, IsSome, true, IfOk, AllPairs};
ghost use Rattle.std.specs.List.{list_any};
ghost use Rattle.std.specs.Option.{option_copied};
ghost use Rattle.std.specs.Ordering.{nat_cmp};
ghost use Rattle.std.specs.declared.cmp.Ordering.TheVariants.{Less};
ghost use Rattle.std.specs.Cmp.Lexicographic.{slice_cmp};
ghost use Rattle.pt_disk.specs.Calls.{AreOrdered};
ghost use Rattle.pt_disk.specs.Files.{Files, is_name};
ghost use Rattle.pt_disk.specs.Folder.{Stable, reads, settled, is_unsynced};
ghost use Rattle.pt_disk.specs.Named.{mentions, name_given};
ghost use Rattle.pt_disk.specs.DiskInMemory.{content_of, folder_after, folder_of};

use crate::{Change, FileNames};
use pt_choice::{NoMemory, Octets};
use std::alloc::Global;

// The bytes of the first file of this name.
pub(crate) fn content_of<'a>(files: &'a [(Octets, Octets)], name: &[u8]) -> Option<&'a [u8]>
    ensures { option_copied result ≡ content_of files.now name.now }
{
    for file in files {
        if file.0.as_slice() == name {
            return Some(file.1.as_slice());
        }
    }
    None
}

// The bytes of the file of this name.
pub(crate) fn bytes_of<'a>(
    files: &'a [(Octets, Octets)],
    changes: &'a [Change],
    name: &'a [u8],
) -> Option<&'a [u8]>
    ensures { option_copied result ≡ reads (folder_of files.now changes.now) name.now }
{
    let mut left = changes;
    let mut sought = name;
    while let Some((change, before)) = left.split_last() {
        left = before;
        match change {
            Change::Put(put, bytes) => {
                if sought == put.as_slice() {
                    return Some(bytes.as_slice());
                }
            }
            Change::Rename(from, to) => {
                if sought == to.as_slice() {
                    sought = from.as_slice();
                } else if sought == from.as_slice() {
                    return None;
                }
            }
            Change::Remove(removed) => {
                if sought == removed.as_slice() {
                    return None;
                }
            }
            Change::Sync(_synced) => {}
            Change::Settle => {}
        }
    }
    content_of(files, sought)
}

// The bytes of the file of this name at the last settle.
pub(crate) fn settled_of<'a>(
    files: &'a [(Octets, Octets)],
    changes: &'a [Change],
    name: &'a [u8],
) -> Option<&'a [u8]>
    ensures { option_copied result ≡ settled (folder_of files.now changes.now) name.now }
{
    let mut left = changes;
    while let Some((change, before)) = left.split_last() {
        left = before;
        if let Change::Settle = change {
            return bytes_of(files, before, name);
        }
    }
    content_of(files, name)
}

// Whether the file of this name has a put that was not synced.
pub(crate) fn is_unsynced(changes: &[Change], name: &[u8]) -> bool
    ensures { (files : Files) → result ≡ is_unsynced (folder_after (Stable files) changes.now) name.now }
{
    let mut left = changes;
    let mut sought = name;
    while let Some((change, before)) = left.split_last() {
        left = before;
        match change {
            Change::Put(put, _bytes) => {
                if sought == put.as_slice() {
                    return true;
                }
            }
            Change::Rename(from, to) => {
                if sought == to.as_slice() {
                    sought = from.as_slice();
                } else if sought == from.as_slice() {
                    return false;
                }
            }
            Change::Sync(synced) => {
                if sought == synced.as_slice() {
                    return false;
                }
            }
            Change::Remove(removed) => {
                if sought == removed.as_slice() {
                    return false;
                }
            }
            Change::Settle => {}
        }
    }
    false
}

// The names that are there, once each and in byte order.
pub(crate) fn names_of(
    alloc: Global,
    files: &[(Octets, Octets)],
    changes: &[Change],
) -> Result<FileNames, NoMemory>
    ensures all { IfOk result (λ names. (name : List ℕ) → Contains names name ↔ IsSome (reads (folder_of files.now changes.now) name)) }
    ensures ordered { IfOk result AreOrdered }
{
    let mut names = FileNames::empty(alloc);
    for name in all_names(alloc, files, changes)?.as_slice() {
        if bytes_of(files, changes, name).is_some() {
            names.push(Octets::of(alloc, name)?)?;
        }
    }
    Ok(names)
}

// Each name that a file has, or had after one of the changes, once and in byte order.
pub(crate) fn all_names<'a>(
    alloc: Global,
    files: &'a [(Octets, Octets)],
    changes: &'a [Change],
) -> Result<Vec<&'a [u8]>, NoMemory>
    ensures all { IfOk result (λ names. (name : List ℕ) → mentions (folder_of files.now changes.now) name ≡ true → list_any (λ one. is_name name one.now) names.items ≡ true) }
    ensures ordered { IfOk result (λ names. AllPairs (λ one other. slice_cmp nat_cmp one.now other.now ≡ Less) names.items) }
{
    let mut names = Vec::new(alloc);
    for file in files {
        names.push(file.0.as_slice())?;
    }
    for change in changes {
        if let Some(name) = name_given(change) {
            names.push(name)?;
        }
    }
    names.sort_unstable();
    names.dedup();
    Ok(names)
}

// The name that a change gives to a file.
fn name_given(change: &Change) -> Option<&[u8]>
    ensures { option_copied result ≡ name_given change.now }
{
    match change {
        Change::Put(name, _bytes) => Some(name.as_slice()),
        Change::Rename(_from, to) => Some(to.as_slice()),
        Change::Sync(_synced) => None,
        Change::Remove(_removed) => None,
        Change::Settle => None,
    }
}
