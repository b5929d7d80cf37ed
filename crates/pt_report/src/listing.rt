ghost use Rattle.std.specs.Prelude.{◌≡◌, ◌≤◌, ℕ, List, [], ◌∷◌, length, codes, All, IfOk};
ghost use Rattle.pt_wire.specs.Limits.{IsWritable};
ghost use Rattle.pt_wire.specs.Printed.{Printed};
ghost use Rattle.pt_report.specs.Listing.{AreEntryLines, IsEntryLine, IsListing};
ghost use Rattle.pt_report.specs.Report.{line};

use crate::pieces::push_line;
use pt_choice::{Choices, NoMemory, Octets};
use pt_stored::Entry;
use pt_wire::{print_choices, unpack};
use std::alloc::Global;

/// One line for each entry, and then how many there are.
pub fn listed(alloc: Global, entries: &[Entry]) -> Result<Octets, NoMemory>
    requires { All (λ entry. length entry.bytes ≤ 65536) entries.now }
    ensures { IfOk result (IsListing entries.now) }
{
    let mut text = entry_lines(alloc, entries)?;
    let count = entries.len().to_string(alloc)?;
    push_line(&mut text, &[count.as_bytes(), b" stored"])?;
    Ok(Octets::from(text))
}

// The lines of the entries.
fn entry_lines(alloc: Global, entries: &[Entry]) -> Result<Vec<u8>, NoMemory>
    requires { All (λ entry. length entry.bytes ≤ 65536) entries.now }
    ensures { IfOk result (λ text. AreEntryLines entries.now text.items) }
{
    let mut text = Vec::new(alloc);
    for entry in entries {
        let line = entry_line(alloc, entry)?;
        text.extend_from_slice(line.as_slice())?;
    }
    Ok(text)
}

// The line of one entry.
fn entry_line(alloc: Global, entry: &Entry) -> Result<Octets, NoMemory>
    requires { length entry.now.bytes ≤ 65536 }
    ensures { IfOk result (IsEntryLine entry.now) }
{
    match unpack(alloc, entry.bytes.as_slice())? {
        Some(unpacked) => spelled_line(alloc, entry, &unpacked.list),
        None => unreadable_line(alloc, entry),
    }
}

// The line of an entry whose bytes spell this list.
fn spelled_line(alloc: Global, entry: &Entry, list: &Choices) -> Result<Octets, NoMemory>
    requires { IsWritable list.now }
    ensures { IfOk result (λ text. (printed : List ℕ) × Printed list.now printed
        × (text ≡ line (entry.now.key ∷ codes " " ∷ printed ∷ []))) }
{
    let mut text = Vec::new(alloc);
    let printed = print_choices(alloc, list)?;
    push_line(&mut text, &[entry.key.as_slice(), b" ", printed.as_slice()])?;
    Ok(Octets::from(text))
}

// The line of an entry whose bytes spell no list.
fn unreadable_line(alloc: Global, entry: &Entry) -> Result<Octets, NoMemory>
    ensures { IfOk result (λ text. text ≡ line (entry.now.key ∷ codes " unreadable" ∷ [])) }
{
    let mut text = Vec::new(alloc);
    push_line(&mut text, &[entry.key.as_slice(), b" unreadable"])?;
    Ok(Octets::from(text))
}
