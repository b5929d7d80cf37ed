ghost use Rattle.std.specs.Prelude.{◌≡◌, ◌≢◌, ◌≤◌, length, All, IfOk, OnErr, IsOk};
ghost use Rattle.pt_io.specs.Sink.{Written, Appends, AppendsPart};
ghost use Rattle.pt_report.specs.Refusals.{refusal_text};
ghost use Rattle.pt_report.specs.declared.refusal.Refusal.{Refusal};
ghost use Rattle.pt_report.specs.declared.refusal.Word.{Word};
ghost use Rattle.pt_val.specs.declared.place.Place.{Place};
ghost use Rattle.pt_commands.specs.Message.{IsTellable, IsText, Tells, refusal_status};

use crate::marking::show_marks;
use crate::{Finish, Message};
use pt_case::Record;
use pt_choice::NoMemory;
use pt_found::Findings;
use pt_io::{Sink, write_all};
use pt_report::{Refusal, fixed_text, listed, refusal_text, replayed};
use pt_stored::Entries;
use pt_val::Name;
use std::alloc::Global;

/// The status where the output failed.
pub const FAILED_WRITE: u8 = 5;

/// Writes what there is to say. Where the output fails, the status is 5; where memory runs out, nothing was written. A
/// refusal that tells no place is told also then.
pub fn tell<K: Sink>(alloc: Global, sink: &mut K, message: Message) -> Result<Finish, NoMemory>
    requires { IsTellable message }
    ensures told { IfOk result (λ finish. Tells message finish (K.shows sink.old) (K.shows sink.new)) }
    ensures refused { (refusal : Refusal) → message ≡ Message.Refused refusal → ((at : Place) (which : Word) → refusal ≢ Refusal.Suite at which) → IsOk result }
    ensures nothing { OnErr result (sink.new ≡ sink.old) }
    ensures later { (K.shows sink.old).faults ≤ (K.shows sink.new).faults }
{
    match message {
        Message::Refused(refusal) => refuse(alloc, sink, refusal),
        Message::Replayed { item, rec } => show_replay(alloc, sink, item, rec),
        Message::Listed(entries) => show_entries(alloc, sink, entries),
        Message::Marked {
            item,
            rec,
            explained,
        } => show_marks(alloc, sink, item, rec, explained),
    }
}

fn refuse<K: Sink>(alloc: Global, sink: &mut K, refusal: Refusal) -> Result<Finish, NoMemory>
    ensures told { IfOk result (λ finish. Tells (Message.Refused refusal) finish (K.shows sink.old) (K.shows sink.new)) }
    ensures refused { ((at : Place) (which : Word) → refusal ≢ Refusal.Suite at which) → IsOk result }
    ensures nothing { OnErr result (sink.new ≡ sink.old) }
    ensures later { (K.shows sink.old).faults ≤ (K.shows sink.new).faults }
{
    if let Refusal::Suite(..) = refusal {
        let text = refusal_text(alloc, &refusal)?;
        return Ok(refuse_with(alloc, sink, refusal, text.as_slice()));
    }
    Ok(refuse_with(alloc, sink, refusal, fixed_text(&refusal)))
}

// Writes the line of a refusal.
fn refuse_with<K: Sink>(alloc: Global, sink: &mut K, refusal: Refusal, text: &[u8]) -> Finish
    requires { text.now ≡ refusal_text refusal }
    ensures told { Tells (Message.Refused refusal) result (K.shows sink.old) (K.shows sink.new) }
    ensures later { (K.shows sink.old).faults ≤ (K.shows sink.new).faults }
{
    let status = match write_all(sink, text) {
        Ok(()) => status(refusal),
        Err(_) => FAILED_WRITE,
    };
    Finish {
        status,
        findings: Findings::empty(alloc),
        replayed: None,
        clash: None,
    }
}

fn status(refusal: Refusal) -> u8
    ensures { result ≡ refusal_status refusal }
{
    match refusal {
        Refusal::Usage => 2,
        Refusal::Suite(..) => 3,
        Refusal::Read => 4,
        Refusal::Database => 6,
        Refusal::Clash => 8,
        Refusal::TooLarge => 9,
        Refusal::UnknownItem => 10,
    }
}

// Writes what the replay shows.
fn show_replay<K: Sink>(
    alloc: Global,
    sink: &mut K,
    item: Name,
    rec: Record,
) -> Result<Finish, NoMemory>
    ensures told { IfOk result (λ finish. Tells (Message.Replayed item rec) finish (K.shows sink.old) (K.shows sink.new)) }
    ensures nothing { OnErr result (sink.new ≡ sink.old) }
    ensures later { (K.shows sink.old).faults ≤ (K.shows sink.new).faults }
{
    let text = replayed(alloc, &item, &rec)?;
    let findings = Findings::empty(alloc);
    if write_all(sink, text.as_slice()).is_err() {
        return Ok(Finish {
            status: FAILED_WRITE,
            findings,
            replayed: None,
            clash: None,
        });
    }
    Ok(Finish {
        status: if rec.ending.is_failure() { 1 } else { 0 },
        findings,
        replayed: Some(rec),
        clash: None,
    })
}

// Writes the lines of the entries, and how many there are.
fn show_entries<K: Sink>(alloc: Global, sink: &mut K, entries: Entries) -> Result<Finish, NoMemory>
    requires { All (λ entry. length entry.bytes ≤ 65536) entries }
    ensures told { IfOk result (λ finish. Tells (Message.Listed entries) finish (K.shows sink.old) (K.shows sink.new)) }
    ensures nothing { OnErr result (sink.new ≡ sink.old) }
    ensures later { (K.shows sink.old).faults ≤ (K.shows sink.new).faults }
{
    let text = listed(alloc, entries.as_slice())?;
    let status = match write_all(sink, text.as_slice()) {
        Ok(()) => 0,
        Err(_) => FAILED_WRITE,
    };
    Ok(Finish {
        status,
        findings: Findings::empty(alloc),
        replayed: None,
        clash: None,
    })
}
