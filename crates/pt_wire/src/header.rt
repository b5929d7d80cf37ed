ghost use Rattle.std.specs.Prelude.{◌<◌, IfErr, IfOk, OnOk};
ghost use Rattle.pt_wire.specs.Spelling.{Appends, FailsAt, Splits};
ghost use Rattle.pt_wire.specs.Stored.{IsHeader, Stored};

use pt_choice::{NoMemory, Octets};

/// The first byte of an entry of version 2. No sort of choice has it, so that no entry of version 1 begins with it.
const VERSION: u8 = 0xf2;

/// Writes the byte of the version and the number of choices.
pub(crate) fn push_header(out: &mut Octets, count: usize) -> Result<(), NoMemory>
    requires { count < 65536 }
    ensures { OnOk result (Appends IsHeader count out.old out.new) }
{
    out.push(VERSION)?;
    out.push((count % 256) as u8)?;
    out.push((count / 256) as u8)
}

/// Reads the number of choices from the front of an entry, and what follows it. An entry without a header fails within
/// the header or at its end.
pub(crate) fn read_header(bytes: &[u8]) -> Result<(u16, &[u8]), usize>
    ensures ok { IfOk result (λ found. Splits IsHeader found.0 bytes.now found.1.now) }
    ensures err { IfErr result (FailsAt Stored bytes.now) }
{
    let Some((version, others)) = bytes.split_first() else {
        return Err(0);
    };
    if *version != VERSION {
        return Err(0);
    }
    match others {
        [low, high, held @ ..] => Ok((u16::from(*low) + 256 * u16::from(*high), held)),
        _ => Err(bytes.len()),
    }
}
