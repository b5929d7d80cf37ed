// What the clauses of a store say of a crash.
ghost use Rattle.std.specs.Prelude.{◌⊎◌, ℕ, List, Some, None};
ghost use Rattle.pt_disk.specs.Files.{Files};
ghost use Rattle.pt_disk.specs.Folder.{Folder, reads, IsImage};
ghost use Rattle.pt_disk.specs.Moments.{Told, now, Elapsed, IsImageSince};
ghost use Rattle.pt_disk.specs.Leaves.{IsAtRest, OneOf};
ghost use Rattle.pt_stored.specs.Digest.{file_name};
ghost use Rattle.pt_stored.specs.Stored.{SameStored, StoredWith, StoredWithout, pending};
ghost use Rattle.pt_db.specs.Editing.{LeavesEither};

/// Of a folder at rest a crash leaves the stored set that reads give.
pub fn what_rests_is_kept()
    ensures { (folder : Folder) (image : Files) → IsAtRest pending folder → IsImage folder image → SameStored (reads folder) image }
{}

/// A crash at any moment since a call began on a folder at rest leaves the stored set of its start, or that with the call's edit; and the files of
/// its start, or these with the value's file, whole or away. What reads give after the call is one of these images, whatever the call answered
/// (`pt_disk::reads_are_an_image`).
pub fn a_crash_leaves_either()
    ensures saved { (digest bytes : List ℕ) (old new : Told) (image : Files) → IsAtRest pending (now old) →
        Elapsed (LeavesEither (StoredWith digest bytes) (file_name digest bytes) (Some bytes) (reads (now old))) old new → IsImageSince new old.clock image →
        (SameStored (reads (now old)) image ⊎ StoredWith digest bytes (reads (now old)) image)
        × OneOf pending (file_name digest bytes) (Some bytes) (reads (now old)) image }
    ensures deleted { (digest bytes : List ℕ) (old new : Told) (image : Files) → IsAtRest pending (now old) →
        Elapsed (LeavesEither (StoredWithout digest bytes) (file_name digest bytes) None (reads (now old))) old new → IsImageSince new old.clock image →
        (SameStored (reads (now old)) image ⊎ StoredWithout digest bytes (reads (now old)) image)
        × OneOf pending (file_name digest bytes) None (reads (now old)) image }
{}
