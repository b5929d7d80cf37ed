ghost use Rattle.std.specs.Prelude.{◌≡◌, ◌<◌, ◌^◌, ℕ, List, length, IfOk};
ghost use Rattle.std.specs.Str.{IsUtf8};
ghost use Rattle.pt_lex.specs.Lexing.{Encoded, NotUtf8At};
ghost use Rattle.pt_lex.specs.Places.{place_behind};
ghost use Rattle.pt_val.specs.declared.place.Place.{Place};

use crate::places::place_past;
use pt_choice::NoMemory;
use pt_val::{Chars, Place};
use std::alloc::Global;
use std::str;

/// Why bytes give no tokens.
#[derive(Clone, Copy, Debug, PartialEq, Eq)]
pub enum LexStop {
    /// The bytes are not UTF-8. The place is that of the first byte of the first sequence that is ill-formed.
    NotUtf8(Place),
    /// There was no memory for the tokens.
    NoMemory,
}

impl From<NoMemory> for LexStop {
    ghost use Rattle.std.specs.Prelude.{◌≡◌};
    ghost use Rattle.pt_lex.specs.declared.characters.LexStop.TheVariants.{NoMemory};

    ghost from_gives = { λ _ stop. stop ≡ NoMemory };

    fn from(_: NoMemory) -> LexStop {
        LexStop::NoMemory
    }
}

/// The characters that the bytes encode.
pub(crate) fn characters(alloc: Global, bytes: &[u8]) -> Result<Chars, LexStop>
    requires { length bytes.now < 2 ^ 30 }
    ensures text { IfOk result (λ text. Encoded text bytes.now) }
    ensures not_utf8 { (place : Place) → result ≡ Err (LexStop.NotUtf8 place) → NotUtf8At bytes.now place }
{
    match str::from_utf8(bytes) {
        Ok(text) => Ok(decode(alloc, text)?),
        Err(error) => {
            let valid = &bytes[..error.valid_up_to()];
            Err(LexStop::NotUtf8(place_behind(alloc, valid)?))
        }
    }
}

/// The place behind these bytes, which are UTF-8.
#[tactic(auto, using(crate::proofs::Encodings::fewer_chars))]
fn place_behind(alloc: Global, valid: &[u8]) -> Result<Place, NoMemory>
    requires utf8 { IsUtf8 valid.now }
    requires small { length valid.now < 2 ^ 30 }
    ensures { IfOk result (λ place. (text : List ℕ) × Encoded text valid.now × (place ≡ place_behind text)) }
{
    let start = Place { line: 1, column: 1 };
    match str::from_utf8(valid) {
        Ok(text) => {
            let chars = decode(alloc, text)?;
            Ok(place_past(start, chars.as_slice()))
        }
        Err(_) => Ok(start),
    }
}

/// The characters of a text.
fn decode(alloc: Global, text: &str) -> Result<Chars, NoMemory>
    ensures { IfOk result (λ chars. Encoded chars text.now) }
{
    let mut chars = Chars::empty(alloc);
    for char in text.chars() {
        chars.push(char)?;
    }
    Ok(chars)
}
