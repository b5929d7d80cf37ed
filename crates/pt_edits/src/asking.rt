ghost use Rattle.std.specs.Prelude.{◌≡◌, ◌≤◌, true, ℕ, List, ◌++◌, length, map, All, IfOk, OnOk};
ghost use Rattle.pt_wire.specs.Limits.{IsWritable};
ghost use Rattle.pt_edits.specs.Added.{Adds};
ghost use Rattle.pt_edits.specs.Pairs.{under};
ghost use Rattle.pt_edits.specs.Readings.{AreEdits, IsAskedBy, IsKeptOrNot, IsRenewed, IsSaved, IsShownSaved, IsWritableReading, list_in, lists_of};
ghost use Rattle.pt_edits.specs.Short.{IsShortEdit};

use crate::{Edit, Edits, Reading, Readings};
use pt_case::ChoiceLists;
use pt_choice::{Choices, NoMemory, Octets};
use pt_found::{Flags, Verdict};
use pt_wire::{Unpacked, encode, short_bytes};
use std::alloc::Global;

/// The lists that the readings spell, in order.
pub fn lists_of(alloc: Global, readings: &Readings) -> Result<ChoiceLists, NoMemory>
    ensures { IfOk result (λ lists. lists ≡ lists_of readings.now) }
{
    let mut lists = ChoiceLists::empty(alloc);
    for reading in readings.as_slice() {
        add_list(&mut lists, reading)?;
    }
    Ok(lists)
}

// Adds the list that the reading spells, if it spells one.
fn add_list(lists: &mut ChoiceLists, reading: &Reading) -> Result<(), NoMemory>
    ensures { OnOk result (lists.new ≡ lists.old ++ list_in reading.now.unpacked) }
{
    match &reading.unpacked {
        Some(unpacked) => lists.push(unpacked.list.copy()?),
        None => Ok(()),
    }
}

/// The edits of an item's turn: the shown example is saved first; then, in the order of the readings, a value that spells no list or
/// whose list does not fail is deleted, and one of version 1 whose list fails is saved in version 2 and deleted. One flag for each
/// list says whether it fails.
pub fn edits_of(
    alloc: Global,
    readings: Readings,
    verdict: &Verdict,
    failing: &Flags,
) -> Result<Edits, NoMemory>
    requires flags { length failing.now ≡ length (lists_of readings) }
    requires writable { All IsWritableReading readings }
    ensures edits { IfOk result (λ edits. (digest : List ℕ) → AreEdits digest readings verdict.now failing.now (map (under digest) edits)) }
    ensures short { IfOk result (All IsShortEdit) }
{
    let mut edits = Edits::empty(alloc);
    add_shown(alloc, verdict, &mut edits)?;
    let mut flags = failing.as_slice();
    for reading in readings {
        flags = add_asked(alloc, reading, flags, &mut edits)?;
    }
    Ok(edits)
}

// Adds the save of the failure that is shown.
fn add_shown(alloc: Global, verdict: &Verdict, edits: &mut Edits) -> Result<(), NoMemory>
    ensures { OnOk result (Adds (λ digest. IsShownSaved digest verdict.now) edits.old edits.new) }
{
    match verdict {
        Verdict::Failed { shown, .. } => add_save(alloc, &shown.choices, edits),
        Verdict::Passed | Verdict::GaveUp => Ok(()),
    }
}

// Adds the edits that a reading asks for, and answers the flags that are left.
fn add_asked<'f>(
    alloc: Global,
    reading: Reading,
    flags: &'f [bool],
    edits: &mut Edits,
) -> Result<&'f [bool], NoMemory>
    requires enough { length (list_in reading.unpacked) ≤ length flags.now }
    requires writable { IsWritableReading reading }
    ensures { IfOk result (λ left. Adds (λ digest. IsAskedBy digest reading.bytes reading.unpacked flags.now left.now) edits.old edits.new) }
{
    let Reading { bytes, unpacked } = reading;
    let Some(unpacked) = unpacked else {
        edits.push(Edit::Delete(bytes))?;
        return Ok(flags);
    };
    add_kept_or_not(alloc, bytes, unpacked, flags[0], edits)?;
    Ok(&flags[1..])
}

// Adds the edits of a value that spells a list.
fn add_kept_or_not(
    alloc: Global,
    bytes: Octets,
    unpacked: Unpacked,
    fails: bool,
    edits: &mut Edits,
) -> Result<(), NoMemory>
    requires { IsWritable unpacked.list }
    ensures { OnOk result (Adds (λ digest. IsKeptOrNot digest bytes unpacked fails) edits.old edits.new) }
{
    if !fails {
        return edits.push(Edit::Delete(bytes));
    }
    if !unpacked.old {
        return Ok(());
    }
    add_renewal(alloc, bytes, &unpacked.list, edits)
}

// Adds the edits of a value of version 1, which spells this list.
fn add_renewal(
    alloc: Global,
    bytes: Octets,
    list: &Choices,
    edits: &mut Edits,
) -> Result<(), NoMemory>
    requires { IsWritable list.now }
    ensures { OnOk result (Adds (λ digest. IsRenewed digest bytes list.now true) edits.old edits.new) }
{
    add_save(alloc, list, edits)?;
    edits.push(Edit::Delete(bytes))
}

// Adds the save of a list, in version 2.
fn add_save(alloc: Global, list: &Choices, edits: &mut Edits) -> Result<(), NoMemory>
    requires { IsWritable list.now }
    ensures { OnOk result (Adds (λ digest. IsSaved digest list.now) edits.old edits.new) }
{
    short_bytes();
    edits.push(Edit::Save(encode(alloc, list)?))
}
