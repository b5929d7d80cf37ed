ghost use Rattle.std.specs.Prelude.{◌≡◌, ◌≤◌, length, All, IfOk, IfSome, OnErr, if◌then◌else◌};
ghost use Rattle.pt_case.specs.Ending.{is_failure};
ghost use Rattle.pt_report.specs.Explaining.{IsPrintable};
ghost use Rattle.pt_commands.specs.Explaining.{IsExplaining};
ghost use Rattle.pt_commands.specs.Message.{Tells};
ghost use Rattle.pt_commands.specs.declared.message.Message.{Message};

use crate::Finish;
use crate::telling::FAILED_WRITE;
use pt_case::Record;
use pt_choice::{NoMemory, Octets};
use pt_explain::Explained;
use pt_found::Findings;
use pt_io::{Sink, write_all};
use pt_report::explain_text;
use pt_val::Name;
use std::alloc::Global;

/// Writes what a replay shows, and of a failure the marks besides.
pub fn show_marks<K: Sink>(
    alloc: Global,
    sink: &mut K,
    item: Name,
    rec: Record,
    explained: Option<Explained>,
) -> Result<Finish, NoMemory>
    requires as_many { IfSome explained (λ e. length e.marks ≡ length rec.choices) }
    requires printable { IfSome explained (λ e. All IsPrintable e.marks) }
    ensures told { IfOk result (λ finish. Tells (Message.Marked item rec explained) finish (K.shows sink.old) (K.shows sink.new)) }
    ensures nothing { OnErr result (sink.new ≡ sink.old) }
    ensures later { (K.shows sink.old).faults ≤ (K.shows sink.new).faults }
{
    let text = marks_text(alloc, &item, &rec, &explained)?;
    let status = match write_all(sink, text.as_slice()) {
        Ok(()) => status_of(&rec),
        Err(_) => FAILED_WRITE,
    };
    Ok(Finish {
        status,
        findings: Findings::empty(alloc),
        replayed: None,
        clash: None,
    })
}

fn marks_text(
    alloc: Global,
    item: &Name,
    rec: &Record,
    explained: &Option<Explained>,
) -> Result<Octets, NoMemory>
    requires as_many { IfSome explained.now (λ e. length e.marks ≡ length rec.now.choices) }
    requires printable { IfSome explained.now (λ e. All IsPrintable e.marks) }
    ensures { IfOk result (IsExplaining item.now rec.now explained.now) }
{
    match explained {
        Some(explained) => explain_text(alloc, item, rec, Some(explained)),
        None => explain_text(alloc, item, rec, None),
    }
}

fn status_of(rec: &Record) -> u8
    ensures { result ≡ (if is_failure rec.now.ending then 1 else 0) }
{
    if rec.ending.is_failure() { 1 } else { 0 }
}
