// What follows from the images of each call, and holds of every disk that tells its folder.
ghost use Rattle.std.specs.Prelude.{◌≡◌, ◌⊎◌, ◌↔◌, ℕ, List, Some, None, false};
ghost use Rattle.pt_disk.specs.Files.{Files, SameBut, with_file};
ghost use Rattle.pt_disk.specs.Prefixes.{put_under, synced_under, renamed_to, replaced, removed_from};
ghost use Rattle.pt_disk.specs.Folder.{Folder, After, reads, is_unsynced, is_touched, IsImage};
ghost use Rattle.pt_disk.specs.declared.change.Change.TheVariants.{Settle};

/// What reads give is one of the images, so also after a call that failed.
pub fn reads_are_an_image()
    ensures { (folder : Folder) → IsImage folder (reads folder) }
{}

/// After a settle, where each put was synced, the one image is what reads give.
pub fn a_settled_folder_stays()
    ensures { (folder : Folder) (image : Files) → ((name : List ℕ) → is_unsynced folder name ≡ false) →
        IsImage (After Settle folder) image → image ≡ reads folder }
{}

/// A settle leaves only what could have been left before it.
pub fn a_settle_adds_no_image()
    ensures { (folder : Folder) (image : Files) → IsImage (After Settle folder) image → IsImage folder image }
{}

/// A name that no call touched since the last settle stays as it is, where its file has no put that was not synced.
pub fn an_untouched_name_stays()
    ensures { (folder : Folder) (image : Files) (name : List ℕ) → is_touched folder name ≡ false → is_unsynced folder name ≡ false →
        IsImage folder image → image name ≡ reads folder name }
{}

/// A save puts bytes under a spare name, syncs that, renames it to the name that the bytes are to have, and settles. From files that
/// are all stable a crash leaves, after each of these calls, just these: anything at the spare name; the old files, or the
/// bytes at the spare name; one of these, or the new files; the new files.
pub fn a_save_leaves_old_or_new()
    ensures put { (files image : Files) (spare bytes : List ℕ) → IsImage (put_under files spare bytes) image ↔ SameBut spare files image }
    ensures synced { (files image : Files) (spare bytes : List ℕ) →
        IsImage (synced_under files spare bytes) image ↔ ((image ≡ files) ⊎ (image ≡ with_file spare (Some bytes) files)) }
    ensures renamed { (files image : Files) (spare name bytes : List ℕ) → IsImage (renamed_to files spare name bytes) image
        ↔ ((image ≡ files) ⊎ ((image ≡ with_file spare (Some bytes) files) ⊎ (image ≡ replaced files spare name bytes))) }
    ensures settled { (files image : Files) (spare name bytes : List ℕ) →
        IsImage (After Settle (renamed_to files spare name bytes)) image ↔ (image ≡ replaced files spare name bytes) }
{}

/// A delete removes a file, and settles: a crash leaves, after each of these calls, the old files or those without it; those
/// without it.
pub fn a_delete_leaves_old_or_new()
    ensures removed { (files image : Files) (name : List ℕ) →
        IsImage (removed_from files name) image ↔ ((image ≡ files) ⊎ (image ≡ with_file name None files)) }
    ensures settled { (files image : Files) (name : List ℕ) →
        IsImage (After Settle (removed_from files name)) image ↔ (image ≡ with_file name None files) }
{}
