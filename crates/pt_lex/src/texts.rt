ghost use Rattle.std.specs.Prelude.{◌≡◌, ◌∷◌, ◌+◌, ◌*◌, ◌<◌, ◌≤◌, ℕ, List, IfOk, MatchOption};
ghost use Rattle.pt_wire.specs.Spelling.{Splits};
ghost use Rattle.pt_lex.specs.Outcome.{Outcome};
ghost use Rattle.pt_lex.specs.Texts.{Closes, IsCode, SpellsChar, is_plain};
ghost use Rattle.pt_lex.specs.reading.Text.{code_on, text_kind, Finds};

use crate::hex::hex_digit;
use pt_choice::NoMemory;
use pt_token::Kind;
use pt_val::Chars;
use std::alloc::Global;

const MOST_CHARS: usize = 256;

const MOST_DIGITS: u32 = 6;

/// The text that a quote begins, where this stands inside it, and what follows it.
pub(crate) fn read_text<'a>(
    alloc: Global,
    text: &'a [char],
    inside: &'a [char],
) -> Result<(Kind, &'a [char]), NoMemory>
    requires { text.now ≡ 34 ∷ inside.now }
    ensures { IfOk result (λ x. Outcome text.now x.0 x.1.now) }
{
    match read_chars(alloc, inside)? {
        Some((chars, rest)) => Ok((text_kind(chars), rest)),
        None => Ok((Kind::Malformed, text)),
    }
}

fn text_kind(chars: Chars) -> Kind
    ensures { result ≡ text_kind chars }
{
    if chars.len() > MOST_CHARS {
        Kind::LongText
    } else {
        Kind::Text(chars)
    }
}

/// The characters up to a quote, and what stands behind it.
fn read_chars(alloc: Global, text: &[char]) -> Result<Option<(Chars, &[char])>, NoMemory>
    ensures { IfOk result (λ found. MatchOption found ((chars rest : List ℕ) → Closes SpellsChar chars text.now rest → ⊥)
        (λ x. Closes SpellsChar x.0 text.now x.1.now)) }
{
    let mut chars = Chars::empty(alloc);
    let mut rest = text;
    while let Some((first, more)) = rest.split_first() {
        if *first == '"' {
            return Ok(Some((chars, more)));
        }
        let Some((char, behind)) = read_char(rest) else {
            return Ok(None);
        };
        chars.push(char)?;
        rest = behind;
    }
    Ok(None)
}

/// The character at the front, and what follows it.
fn read_char(text: &[char]) -> Option<(char, &[char])>
    ensures { MatchOption result ((char : ℕ) (rest : List ℕ) → Splits SpellsChar char text.now rest → ⊥) (λ x. Splits SpellsChar x.0 text.now x.1.now) }
{
    let (first, rest) = text.split_first()?;
    if *first == '\\' {
        return read_escape(rest);
    }
    if is_plain(*first) {
        Some((*first, rest))
    } else {
        None
    }
}

fn is_plain(char: char) -> bool
    ensures { result ≡ is_plain char }
{
    char >= ' ' && char != '\u{7f}' && char != '"' && char != '\\'
}

/// The character that stands behind a backslash, and what follows it.
fn read_escape(text: &[char]) -> Option<(char, &[char])>
    ensures { MatchOption result ((char : ℕ) (rest : List ℕ) → Splits SpellsChar char (92 ∷ text.now) rest → ⊥) (λ x. Splits SpellsChar x.0 (92 ∷ text.now) x.1.now) }
{
    let (first, rest) = text.split_first()?;
    match *first {
        '"' | '\\' => Some((*first, rest)),
        'u' => read_code(rest),
        _ => None,
    }
}

/// The character that a code in braces stands for, and what follows it.
fn read_code(text: &[char]) -> Option<(char, &[char])>
    ensures { MatchOption result ((char : ℕ) (rest : List ℕ) → Splits IsCode char text.now rest → ⊥) (λ x. Splits IsCode x.0 text.now x.1.now) }
{
    let digits = text.strip_prefix(&['{'])?;
    let (code, rest) = read_digits(digits)?;
    let char = char::from_u32(code)?;
    Some((char, rest))
}

/// What one to six digits up to a brace stand for, and what follows it.
fn read_digits(text: &[char]) -> Option<(u32, &[char])>
    ensures { Finds result (code_on 0 0 text.now) }
{
    let mut code = 0u32;
    let mut count = 0u32;
    let mut rest = text;
    while let Some((char, more)) = rest.split_first() {
        if *char == '}' && count > 0 {
            return Some((code, more));
        }
        if count == MOST_DIGITS {
            return None;
        }
        let digit = hex_digit(*char)?;
        code = 16 * code + u32::from(digit);
        count += 1;
        rest = more;
    }
    None
}
