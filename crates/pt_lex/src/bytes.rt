ghost use Rattle.std.specs.Prelude.{◌≡◌, ◌∷◌, ℕ, List, IfOk, MatchOption};
ghost use Rattle.pt_wire.specs.Printed.{PrintedByte};
ghost use Rattle.pt_wire.specs.Spelling.{Splits};
ghost use Rattle.pt_lex.specs.Outcome.{Outcome};
ghost use Rattle.pt_lex.specs.Texts.{Closes};
ghost use Rattle.pt_lex.specs.reading.Text.{bytes_kind};

use crate::hex::hex_digit;
use pt_choice::{NoMemory, Octets};
use pt_token::Kind;
use std::alloc::Global;

const MOST_BYTES: usize = 64;

/// The bytes that an `x` and a quote begin, where this stands inside them, and what follows them.
pub(crate) fn read_bytes<'a>(
    alloc: Global,
    text: &'a [char],
    inside: &'a [char],
) -> Result<(Kind, &'a [char]), NoMemory>
    requires { text.now ≡ 120 ∷ 34 ∷ inside.now }
    ensures { IfOk result (λ x. Outcome text.now x.0 x.1.now) }
{
    match read_pairs(alloc, inside)? {
        Some((bytes, rest)) => Ok((bytes_kind(bytes), rest)),
        None => Ok((Kind::Malformed, text)),
    }
}

fn bytes_kind(bytes: Octets) -> Kind
    ensures { result ≡ bytes_kind bytes }
{
    if bytes.len() > MOST_BYTES {
        Kind::LongBytes
    } else {
        Kind::Bytes(bytes)
    }
}

/// The bytes up to a quote, and what stands behind it.
fn read_pairs(alloc: Global, text: &[char]) -> Result<Option<(Octets, &[char])>, NoMemory>
    ensures { IfOk result (λ found. MatchOption found ((bytes rest : List ℕ) → Closes PrintedByte bytes text.now rest → ⊥)
        (λ x. Closes PrintedByte x.0 text.now x.1.now)) }
{
    let mut bytes = Octets::empty(alloc);
    let mut rest = text;
    while let Some((first, more)) = rest.split_first() {
        if *first == '"' {
            return Ok(Some((bytes, more)));
        }
        let Some((byte, behind)) = read_pair(rest) else {
            return Ok(None);
        };
        bytes.push(byte)?;
        rest = behind;
    }
    Ok(None)
}

/// The byte that two digits at the front stand for, and what follows them.
fn read_pair(text: &[char]) -> Option<(u8, &[char])>
    ensures { MatchOption result ((byte : ℕ) (rest : List ℕ) → Splits PrintedByte byte text.now rest → ⊥) (λ x. Splits PrintedByte x.0 text.now x.1.now) }
{
    let (first, others) = text.split_first()?;
    let (second, rest) = others.split_first()?;
    let high = hex_digit(*first)?;
    let low = hex_digit(*second)?;
    Some((16 * high + low, rest))
}
