ghost use Rattle.std.specs.Prelude.{◌≡◌, ◌++◌, IfOk, OnOk};
ghost use Rattle.pt_report.specs.Report.{ending_text, origin_text, place_text, what_text};

use crate::pieces::push;
use pt_case::{Ending, Origin, What};
use pt_choice::{NoMemory, Octets};
use pt_val::Place;
use std::alloc::Global;

/// How a case ended.
pub fn ending_text(alloc: Global, ending: Ending) -> Result<Octets, NoMemory>
    ensures { IfOk result (λ text. text ≡ ending_text ending) }
{
    match ending {
        Ending::Pass => Octets::of(alloc, b"passed"),
        Ending::Reject => Octets::of(alloc, b"rejected"),
        Ending::Overrun => Octets::of(alloc, b"overrun"),
        Ending::Fail(origin) => {
            let mut text = Vec::from_slice(alloc, b"failed at ")?;
            push_origin(alloc, &mut text, origin)?;
            Ok(Octets::from(text))
        }
    }
}

fn push_origin(alloc: Global, text: &mut Vec<u8>, origin: Origin) -> Result<(), NoMemory>
    ensures { OnOk result (text.new.items ≡ text.old.items ++ origin_text origin) }
{
    match origin {
        Origin::Suite { what, place } => {
            let place = place_text(alloc, place)?;
            push(text, &[place.as_slice(), b" (", what_text(what), b")"])
        }
        Origin::Point(point) => {
            let point = point.to_string(alloc)?;
            push(text, &[b"point ", point.as_bytes()])
        }
    }
}

/// A place of a text, as `L:C`.
pub fn place_text(alloc: Global, place: Place) -> Result<Octets, NoMemory>
    ensures { IfOk result (λ text. text ≡ place_text place) }
{
    let mut text = Vec::new(alloc);
    let line = place.line.to_string(alloc)?;
    let column = place.column.to_string(alloc)?;
    push(&mut text, &[line.as_bytes(), b":", column.as_bytes()])?;
    Ok(Octets::from(text))
}

fn what_text(what: What) -> &'static [u8]
    ensures { result.now ≡ what_text what }
{
    match what {
        What::Assert => b"assert",
        What::Invariant => b"invariant",
        What::Overflow => b"overflow",
        What::Division => b"division",
        What::Index => b"index",
        What::Cost => b"cost",
        What::Bounds => b"bounds",
    }
}
