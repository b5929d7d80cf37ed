ghost use Rattle.std.specs.Prelude.{◌≡◌, ◌≢◌, None, Some, IfOk, IfSome, AllPairs, ℕ, List, Option};
ghost use Rattle.std.specs.Option.{option_copied};
ghost use Rattle.pt_disk.specs.Kept.{first_half, left_of, without_unstable, kept};
ghost use Rattle.pt_disk.specs.DiskInMemory.{content_of, folder_of};

use crate::history::{all_names, bytes_of, content_of, is_unsynced, settled_of};
use crate::{Change, NamedFiles};
use pt_choice::{NoMemory, Octets};
use std::alloc::Global;

/// How much a crash keeps of what is not stable.
#[derive(Clone, Copy, Debug, PartialEq, Eq)]
pub enum Keep {
    /// Nothing.
    Least,
    /// All of it.
    Most,
    /// The first half of each put that was not synced, rounded down, and nothing else.
    Torn,
}

// What is left of a put that was not synced; None where that is the file from before it.
fn part_of<'a>(keep: Keep, put: &'a [u8]) -> Option<&'a [u8]>
    ensures old { result ≡ None → (old : Option (List ℕ)) → left_of keep old (Some put.now) ≡ old }
    ensures part { IfSome result (λ part. (old : Option (List ℕ)) → left_of keep old (Some put.now) ≡ Some part.now) }
{
    match keep {
        Keep::Least => None,
        Keep::Most => Some(put),
        Keep::Torn => Some(&put[..put.len() / 2]),
    }
}

// The bytes of this name without any change that is not stable, but for what is left of puts that were not synced.
fn without_unstable<'a>(
    keep: Keep,
    files: &'a [(Octets, Octets)],
    changes: &'a [Change],
    name: &'a [u8],
) -> Option<&'a [u8]>
    ensures { option_copied result ≡ without_unstable keep (folder_of files.now changes.now) name.now }
{
    let mut left = changes;
    while let Some((change, before)) = left.split_last() {
        left = before;
        match change {
            Change::Put(put, bytes) => {
                if name == put.as_slice()
                    && let Some(part) = part_of(keep, bytes.as_slice())
                {
                    return Some(part);
                }
            }
            Change::Sync(synced) => {
                if name == synced.as_slice() && is_unsynced(before, name) {
                    return settled_of(files, before, name);
                }
            }
            Change::Rename(_from, _to) => {}
            Change::Remove(_removed) => {}
            Change::Settle => {
                let bytes = bytes_of(files, before, name);
                if !is_unsynced(before, name) {
                    return bytes;
                }
                if let Some(put) = bytes
                    && let Some(part) = part_of(keep, put)
                {
                    return Some(part);
                }
            }
        }
    }
    content_of(files, name)
}

// The bytes that are kept of this name.
pub(crate) fn kept<'a>(
    keep: Keep,
    files: &'a [(Octets, Octets)],
    changes: &'a [Change],
    name: &'a [u8],
) -> Option<&'a [u8]>
    ensures { option_copied result ≡ kept keep (folder_of files.now changes.now) name.now }
{
    match keep {
        Keep::Most => bytes_of(files, changes, name),
        Keep::Least | Keep::Torn => without_unstable(keep, files, changes, name),
    }
}

// The files that are kept.
pub(crate) fn kept_files(
    alloc: Global,
    keep: Keep,
    files: &[(Octets, Octets)],
    changes: &[Change],
) -> Result<NamedFiles, NoMemory>
    ensures all { IfOk result (λ image. content_of image ≡ kept keep (folder_of files.now changes.now)) }
    ensures distinct { IfOk result (AllPairs (λ one other. one.0 ≢ other.0)) }
{
    let mut image = NamedFiles::empty(alloc);
    for name in all_names(alloc, files, changes)?.as_slice() {
        if let Some(bytes) = kept(keep, files, changes, name) {
            image.push((Octets::of(alloc, name)?, Octets::of(alloc, bytes)?))?;
        }
    }
    Ok(image)
}
