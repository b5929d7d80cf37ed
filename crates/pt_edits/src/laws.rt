// What the edits of a turn mean for what is stored. A law is what its function ensures; it does nothing.
ghost use Rattle.std.specs.Prelude.{◌≡◌, ◌⊎◌, ℕ, Bool, true, false, List, ◌++◌, map, All};
ghost use Rattle.pt_choice.specs.declared.choice.Choice.{Choice};
ghost use Rattle.pt_case.specs.declared.record.Record.{Record};
ghost use Rattle.pt_disk.specs.Files.{Files};
ghost use Rattle.pt_disk.specs.Folder.{reads, IsImage};
ghost use Rattle.pt_disk.specs.Leaves.{IsTidy};
ghost use Rattle.pt_disk.specs.Moments.{Told, now, IsImageSince};
ghost use Rattle.pt_found.specs.declared.finding.Found.{Found};
ghost use Rattle.pt_found.specs.declared.finding.Verdict.{Verdict};
ghost use Rattle.pt_found.specs.declared.finding.Verdict.TheVariants.{Failed};
ghost use Rattle.pt_stored.specs.Stored.{IsStored, pending};
ghost use Rattle.pt_wire.specs.Stored.{Stored};
ghost use Rattle.pt_edits.specs.Differences.{SameElsewhere, NothingIsLost, NothingIsInvented};
ghost use Rattle.pt_edits.specs.Made.{Made, Settled};
ghost use Rattle.pt_edits.specs.Pairs.{PairEdit, AreUnder, IsAfter, IsAfterSome};
ghost use Rattle.pt_edits.specs.Readings.{AreEdits, IsSpelled, lists_of};
ghost use Rattle.pt_edits.specs.declared.reading.Reading.{Reading};

/// The edits of a turn are all of its key, and such edits, or some first ones of them, leave what is stored under other keys.
pub fn edits_of_one_key_leave_others()
    ensures of_one_key { (digest : List ℕ) (readings : List Reading) (verdict : Verdict) (flags : List Bool) (edits : List PairEdit) →
        AreEdits digest readings verdict flags edits → AreUnder digest edits }
    ensures others { (digest : List ℕ) (edits : List PairEdit) (old new : Files) → AreUnder digest edits → IsAfterSome edits old new → SameElsewhere digest old new }
{}

/// After the edits of a turn, or some first ones of them, nothing is missing but values of the key that spell no list, those whose list
/// does not fail, and those of version 1 that are kept in version 2.
pub fn nothing_is_lost()
    ensures { (digest : List ℕ) (fails : List Choice → Bool) (readings : List Reading) (verdict : Verdict) (edits : List PairEdit) (old new : Files) →
        All IsSpelled readings → AreEdits digest readings verdict (map fails (lists_of readings)) edits → IsAfterSome edits old new →
        NothingIsLost digest fails readings old new }
{}

/// After the edits of a turn, or some first ones of them, nothing is new but, under the key and in version 2, the failure that is
/// shown, and the readings' lists that fail.
pub fn nothing_is_invented()
    ensures { (digest : List ℕ) (fails : List Choice → Bool) (readings : List Reading) (verdict : Verdict) (edits : List PairEdit) (old new : Files) →
        AreEdits digest readings verdict (map fails (lists_of readings)) edits → IsAfterSome edits old new →
        NothingIsInvented digest fails verdict readings old new }
{}

/// After all edits of a turn the failure that is shown is stored, in version 2.
pub fn a_shown_failure_is_stored()
    ensures { (digest : List ℕ) (fails : List Choice → Bool) (readings : List Reading) (shown : Record) (found : Found) (spent : Bool)
        (edits : List PairEdit) (old new : Files) → All IsSpelled readings → fails shown.choices ≡ true →
        AreEdits digest readings (Failed shown found spent) (map fails (lists_of readings)) edits → IsAfter edits old new →
        (fresh : List ℕ) × Stored shown.choices fresh × IsStored new digest fresh }
{}

/// A tidy folder was settled, some edits were made, and of more edits some first ones. Then a crash at any moment since leaves what it might
/// have left at the start, or the files from the start after some first ones of all these edits; and a crash at the end the files after all of the
/// former and some first ones of the latter.
pub fn a_crash_leaves_first_edits()
    ensures since { (edits more : List PairEdit) (old mid new : Told) (image : Files) → Settled edits true old mid → Made more false mid new →
        IsTidy pending (now old) → IsImageSince new old.clock image → IsImage (now old) image ⊎ IsAfterSome (edits ++ more) (reads (now old)) image }
    ensures at_the_end { (edits more : List PairEdit) (old mid new : Told) (image : Files) → Settled edits true old mid → Made more false mid new →
        IsTidy pending (now old) → IsImage (now new) image →
        (made left : List PairEdit) × (more ≡ made ++ left) × IsAfter (edits ++ made) (reads (now old)) image }
{}
