//! Whether a text is refused at its first fault.

use crate::long::{Long, text_of};
use crate::shown::MOST_BYTES;
use pt_choice::NoMemory;
use pt_parse::{SuiteFault, read_suite};
use pt_val::Place;
use std::alloc::Global;

#[derive(Clone, Copy)]
pub(crate) enum Fault {
    NotUtf8,
    Syntax,
    TooDeep,
    OutOfRange,
}

/// A text that is refused: how, and at which line and column.
pub(crate) type Refused = (Long, Fault, u32, u32);

/// Whether the text has this first fault.
pub(crate) fn is_refused(alloc: Global, refused: Refused) -> Result<bool, NoMemory> {
    let (long, fault, line, column) = refused;
    let text = text_of(alloc, long)?;
    if text.len() > MOST_BYTES {
        return Ok(false);
    }
    match read_suite(alloc, text.as_slice()) {
        Ok(_) => Ok(false),
        Err(found) => is_fault(found, fault, Place { line, column }),
    }
}

fn is_fault(found: SuiteFault, fault: Fault, at: Place) -> Result<bool, NoMemory> {
    match found {
        SuiteFault::NotUtf8(place) => Ok(matches!(fault, Fault::NotUtf8) && place == at),
        SuiteFault::Syntax(place) => Ok(matches!(fault, Fault::Syntax) && place == at),
        SuiteFault::TooDeep(place) => Ok(matches!(fault, Fault::TooDeep) && place == at),
        SuiteFault::OutOfRange(place) => Ok(matches!(fault, Fault::OutOfRange) && place == at),
        SuiteFault::NoMemory => Err(NoMemory),
    }
}
