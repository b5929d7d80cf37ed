ghost use Rattle.std.specs.Prelude.{◌≡◌};
ghost use Rattle.pt_lex.specs.reading.Number.{digits_on, minus_token, number_follows, number_token};

use crate::gaps::behind_gap;
use pt_token::Kind;

/// The number at the front, and what follows it.
pub(crate) fn read_number(text: &[char]) -> (Kind, &[char])
    ensures { (result.0, result.1.now) ≡ number_token text.now }
{
    if let Some(('0', rest)) = text.split_first() {
        return (Kind::Number(0), rest);
    }
    let (kept, rest) = read_digits(text);
    (Kind::Number(kept), rest)
}

/// A minus sign before this text.
#[tactic(auto, unfolding(crate::specs::reading::Number::minus_token))]
pub(crate) fn read_minus(text: &[char]) -> Kind
    ensures { (result, text.now) ≡ minus_token text.now }
{
    Kind::Minus(number_follows(text))
}

/// Whether a number is the next token.
fn number_follows(text: &[char]) -> bool
    ensures { result ≡ number_follows text.now }
{
    match behind_gap(text).first() {
        Some(char) => char.is_ascii_digit(),
        None => false,
    }
}

/// The digits at the front as a number, or the greatest `u64` past that, and what follows them.
fn read_digits(text: &[char]) -> (u64, &[char])
    ensures { (result.0, result.1.now) ≡ digits_on 0 text.now }
{
    let mut kept = 0u64;
    let mut rest = text;
    while let Some((digit, more)) = rest.split_first() {
        if !digit.is_ascii_digit() {
            return (kept, rest);
        }
        kept = kept
            .saturating_mul(10)
            .saturating_add(u64::from(*digit) - u64::from('0'));
        rest = more;
    }
    (kept, rest)
}
