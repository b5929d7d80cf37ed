ghost use Rattle.std.specs.Prelude.{◌≡◌, ◌<◌, ◌^◌, List, length, IfOk};
ghost use Rattle.pt_choice.specs.declared.choice.Choice.{Choice};
ghost use Rattle.pt_wire.specs.Answer.{IsAnswerFor, Reads};
ghost use Rattle.pt_wire.specs.Limits.{IsWritable};
ghost use Rattle.pt_wire.specs.Printed.{Printed, PrintedChoice, space};
ghost use Rattle.pt_wire.specs.Spelling.{Joined};

use crate::WireFault;
use crate::fault::Stop;
use crate::gathered::Gathered;
use crate::mark::cut;
use crate::word::read_word;
use pt_choice::{Choice, Choices};
use std::alloc::Global;

/// Reads the text in which a list of choices is printed, all of it. It has fewer than 2^32 bytes. A list of more than
/// 256 choices is not kept, and the text behind its first 256 is still read.
pub fn read_choices(alloc: Global, text: &[u8]) -> Result<Choices, WireFault>
    requires { length text.now < 2 ^ 32 }
    ensures reads { Reads Printed text.now result }
    ensures only { (list : List Choice) → Printed list text.now → IsAnswerFor list result }
    ensures writable { IfOk result IsWritable }
{
    let Some((first, others)) = text.split_first() else {
        return Err(WireFault::NotSpelling { at: 0 });
    };
    if *first != b'-' {
        return read_words(alloc, text);
    }
    if others.is_empty() {
        Ok(Choices::empty(alloc))
    } else {
        Err(WireFault::NotSpelling { at: 1 })
    }
}

/// Reads one choice or more with a space between each two.
fn read_words(alloc: Global, text: &[u8]) -> Result<Choices, WireFault>
    requires { length text.now < 2 ^ 32 }
    ensures { Reads (Joined PrintedChoice space) text.now result }
{
    let mut gathered = Gathered::empty(alloc);
    let mut rest = text;
    loop {
        let (word, after) = cut(rest, b' ');
        match read_word(alloc, word) {
            Ok(choice) => gathered.gather(choice)?,
            Err(Stop::At(place)) => {
                let at = text.len() - rest.len() + place;
                return Err(WireFault::NotSpelling { at: at as u32 });
            }
            Err(Stop::NoMemory) => return Err(WireFault::NoMemory),
        }
        match after {
            Some(others) => rest = others,
            None => return gathered.into_list(),
        }
    }
}
