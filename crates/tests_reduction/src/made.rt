//! Records and lists as tables write them.

ghost use Rattle.std.specs.Prelude.{◌≡◌, ◌<◌, ◌≤◌, ℕ, length, IfSome, IsTrue};
ghost use Rattle.pt_case.specs.Placed.{ArePlaced};
ghost use Rattle.pt_wire.specs.Limits.{IsWritable};

use pt_case::{Ending, Notes, Origin, Record, Span, Spans};
use pt_choice::{Choices, NoMemory};
use pt_wire::read_choices;
use std::alloc::Global;

/// A span's label, its ends and its parent.
pub type Row = (u32, u16, u16, Option<u16>);

/// The list of this spelling.
pub fn list_of(alloc: Global, text: &str) -> Option<Choices>
    ensures { IfSome result IsWritable }
{
    read(alloc, text.as_bytes())
}

fn read(alloc: Global, text: &[u8]) -> Option<Choices>
    ensures { IfSome result IsWritable }
{
    if text.len() > 1000 {
        return None;
    }
    read_choices(alloc, text).ok()
}

/// A failing record of these choices and spans. None where no record has them.
pub fn record_of(alloc: Global, text: &str, rows: &[Row]) -> Option<Record> {
    failing(alloc, list_of(alloc, text)?, rows)
}

fn failing(alloc: Global, choices: Choices, rows: &[Row]) -> Option<Record>
    requires { IsWritable choices }
{
    let spans = spans_of(alloc, choices.len(), rows)?;
    Some(Record {
        choices,
        spans,
        notes: Notes::empty(alloc),
        ending: Ending::Fail(Origin::Point(1)),
    })
}

/// A record of as many choices and spans as one may have: 256 spans in one another, with three spans of one choice in each. Each
/// eighth choice is an integer.
pub fn large_record(alloc: Global) -> Option<Record> {
    let choices = read(alloc, large_text(alloc).ok()?.as_slice())?;
    let rows = large_rows(alloc).ok()?;
    failing(alloc, choices, rows.as_slice())
}

fn large_text(alloc: Global) -> Result<Vec<u8>, NoMemory> {
    let mut text = Vec::new(alloc);
    for place in 0..256u16 {
        if place > 0 {
            text.push(b' ')?;
        }
        text.extend_from_slice(if place % 8 == 0 { b"i9" } else { b"bt" })?;
    }
    Ok(text)
}

fn large_rows(alloc: Global) -> Result<Vec<Row>, NoMemory> {
    let mut rows = Vec::new(alloc);
    for place in 0..256u16 {
        let parent = if place == 0 {
            None
        } else {
            Some(4 * (place - 1))
        };
        rows.push((1, place, 256, parent))?;
        for label in 2..5 {
            rows.push((label, place, place + 1, Some(4 * place)))?;
        }
    }
    Ok(rows)
}

fn spans_of(alloc: Global, count: usize, rows: &[Row]) -> Option<Spans>
    ensures few { IfSome result (λ spans. length spans ≤ 1024) }
    ensures placed { IfSome result (ArePlaced count) }
{
    let mut spans = Spans::empty(alloc);
    for row in rows {
        add(&mut spans, count, *row)?;
    }
    Some(spans)
}

fn add(spans: &mut Spans, count: usize, row: Row) -> Option<()>
    requires few { length spans.old ≤ 1024 }
    requires placed { ArePlaced count spans.old }
    ensures few { length spans.new ≤ 1024 }
    ensures placed { ArePlaced count spans.new }
{
    let (label, from, to, parent) = row;
    if from > to
        || usize::from(to) > count
        || !is_earlier(parent, spans.len())
        || spans.len() >= 1024
    {
        return None;
    }
    spans
        .push(Span {
            label,
            from,
            to,
            parent,
        })
        .ok()
}

fn is_earlier(parent: Option<u16>, number: usize) -> bool
    ensures { IsTrue result → (k : ℕ) → parent ≡ Some k → k < number }
{
    match parent {
        None => true,
        Some(parent) => usize::from(parent) < number,
    }
}
