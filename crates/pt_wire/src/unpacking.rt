ghost use Rattle.std.specs.Prelude.{◌≡◌, ◌<◌, ◌≤◌, ◌^◌, List, length, IfOk, IfSome, IsSome, Ok};
ghost use Rattle.pt_choice.specs.declared.choice.Choice.{Choice};
ghost use Rattle.pt_wire.specs.Answer.{IsAnswerFor};
ghost use Rattle.pt_wire.specs.Limits.{IsWritable};
ghost use Rattle.pt_wire.specs.Unpacked.{IsUnpacked};

use crate::{WireFault, decode, decode_one};
use pt_choice::{Choices, NoMemory};
use std::alloc::Global;

/// What a stored entry holds.
#[derive(Debug, Drop)]
pub struct Unpacked {
    pub list: Choices,
    /// The entry is one of version 1, which is read and no longer written.
    pub old: bool,
}

/// Reads a stored entry of version 2, or else of version 1. It has fewer than 2^32 bytes. None where neither version
/// spells a list of at most 256 choices with them.
pub fn unpack(alloc: Global, bytes: &[u8]) -> Result<Option<Unpacked>, NoMemory>
    requires { length bytes.now < 2 ^ 32 }
    ensures found { IfOk result (IsUnpacked bytes.now) }
    ensures writable { IfOk result (λ entry. IfSome entry (λ unpacked. IsWritable unpacked.list)) }
{
    if let Some(list) = list_of(decode(alloc, bytes))? {
        return Ok(Some(Unpacked { list, old: false }));
    }
    match list_of(decode_one(alloc, bytes))? {
        Some(list) => Ok(Some(Unpacked { list, old: true })),
        None => Ok(None),
    }
}

/// The list that was read, or none where it was refused.
fn list_of(read: Result<Choices, WireFault>) -> Result<Option<Choices>, NoMemory>
    ensures some { IfOk result (λ found. IfSome found (λ list. read ≡ Ok list)) }
    ensures none { IfOk result (λ found. (list : List Choice) → IsAnswerFor list read → length list ≤ 256 → IsSome found) }
{
    match read {
        Ok(list) => Ok(Some(list)),
        Err(WireFault::NoMemory) => Err(NoMemory),
        Err(_) => Ok(None),
    }
}
