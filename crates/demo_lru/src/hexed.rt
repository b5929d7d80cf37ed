//! The check `hex_round_trip`: bytes as hex text, and back.

ghost use Rattle.std.specs.Prelude.{◌≡◌, IfOk};
ghost use Rattle.demo_lru.specs.Hexed.{is_read_back, hex_name, hex_says};
ghost use Rattle.pt_handed.specs.Checks.{IsCheck};

use hex::FromHexError;
use pt_case::{Check, Ending, Origin};
use pt_choice::{NoMemory, Octets};
use pt_typed::{Blobs, Judge, Property};
use pt_val::Name;
use std::alloc::Global;

/// Fails at point 1 where the hex text of bytes, read back, is not these bytes.
#[derive(Debug, Drop)]
pub struct ReadBack;

impl Judge<Octets> for ReadBack {
    ghost use Rattle.demo_lru.specs.Hexed.{read_back};

    ghost verdict = { λ _ bytes. read_back bytes };

    fn judge(&self, alloc: Global, bytes: &Octets) -> Result<Ending, NoMemory> {
        let same = is_read_back(alloc, bytes.as_slice())?;
        if same {
            return Ok(Ending::Pass);
        }
        Ok(Ending::Fail(Origin::Point(1)))
    }
}

/// Whether the hex text of these bytes is read as these bytes.
pub fn is_read_back(alloc: Global, bytes: &[u8]) -> Result<bool, NoMemory>
    ensures { IfOk result (λ same. same ≡ is_read_back bytes.now) }
{
    let text = hex::encode(alloc, bytes)?;
    match hex::decode(alloc, text.as_str()) {
        Ok(back) => Ok(back.as_slice() == bytes),
        Err(FromHexError::OutOfMemory) => Err(NoMemory),
        Err(_) => Ok(false),
    }
}

/// Up to 32 bytes are written as hex text and read back.
pub type HexCheck = Property<Blobs, ReadBack>;

pub fn hex_check(alloc: Global) -> Result<HexCheck, NoMemory>
    ensures { IfOk result (λ check. IsCheck (⟦<HexCheck as Check>⟧.name check) (⟦<HexCheck as Check>⟧.step check) hex_name hex_says) }
{
    match Name::of(alloc, "hex_round_trip") {
        Ok(name) => Ok(Property::of(alloc, name, Blobs::of(0, 32), ReadBack)),
        Err(_) => Err(NoMemory),
    }
}
