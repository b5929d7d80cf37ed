ghost use Rattle.std.specs.Prelude.{◌≡◌, ◌++◌, IfOk, OnOk, flat_map};
ghost use Rattle.pt_report.specs.Report.{AreShown, note_line};

use crate::pieces::push_line;
use pt_case::{Note, Notes, Record};
use pt_choice::{NoMemory, Octets};
use pt_val::show;
use pt_wire::print_choices;
use std::alloc::Global;

/// The notes and the choices of a record.
pub fn shown_lines(alloc: Global, rec: &Record) -> Result<Octets, NoMemory>
    ensures { IfOk result (AreShown rec.now) }
{
    let mut text = note_lines(alloc, &rec.notes)?;
    let choices = print_choices(alloc, &rec.choices)?;
    push_line(&mut text, &[b"  choices: ", choices.as_slice()])?;
    Ok(Octets::from(text))
}

fn note_lines(alloc: Global, notes: &Notes) -> Result<Vec<u8>, NoMemory>
    ensures { IfOk result (λ text. text.items ≡ flat_map note_line notes.now) }
{
    let mut text = Vec::new(alloc);
    for note in notes.as_slice() {
        push_note(alloc, &mut text, note)?;
    }
    Ok(text)
}

fn push_note(alloc: Global, text: &mut Vec<u8>, note: &Note) -> Result<(), NoMemory>
    ensures { OnOk result (text.new.items ≡ text.old.items ++ note_line note.now) }
{
    let val = show(alloc, &note.val)?;
    push_line(text, &[b"  ", note.name.as_slice(), b" = ", val.as_slice()])
}
