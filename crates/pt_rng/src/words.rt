//! How a choice is made of words.
//!
//! Short runs are to meet the ends of a range and 0 often, since faults stand there: three of eight integers are one
//! of these, and cost one word.

ghost use Rattle.std.specs.Prelude.{◌≡◌, ◌+◌, ◌<◌, ◌≤◌, ◌^◌, true, IfOk, OnOk, OnErr, IsOk};
ghost use Rattle.pt_choice.specs.Kind.{admits, AsksSmall, IsShape};
ghost use Rattle.pt_choice.specs.declared.kind.Shape.TheVariants.{Int};
ghost use Rattle.pt_rng.specs.Words.{nth_word, words_after, length_of, numbers_of, integer_of, choice_of, words_read, HasReadUpTo};

use pt_choice::{Choice, Kind, NoMemory, Octets, Shape};
use rand_chacha::ChaCha8Rng;
use rand_core::utils::NextWord;
use std::alloc::Global;

pub(crate) fn choice_from(
    alloc: Global,
    words: &mut ChaCha8Rng,
    kind: &Kind,
) -> Result<Choice, NoMemory>
    requires { words.old.word_pos < 2 ^ 68 }
    ensures made { IfOk result (λ choice. choice ≡ choice_of words.old kind.now) }
    ensures admitted { IfOk result (λ choice. admits kind.now choice ≡ true) }
    ensures moved { OnOk result (words.new ≡ words_after words.old (words_read words.old kind.now)) }
    ensures part { OnErr result (HasReadUpTo (words_read words.old kind.now) words.old words.new) }
    ensures place { words.new.word_pos < 2 ^ 68 }
    ensures small { AsksSmall kind.now → IsOk result }
{
    match kind.shape() {
        Shape::Bool { chance } => Ok(Choice::Bool(next_word(words) % 16 < u32::from(chance))),
        Shape::Int { lo, hi } => Ok(Choice::Int(integer_from(words, lo, hi))),
        Shape::Bytes { min, max } => Ok(Choice::Bytes(octets_from(alloc, words, min, max, 256)?)),
        Shape::Text { min, max, size } => {
            Ok(Choice::Text(octets_from(alloc, words, min, max, size)?))
        }
    }
}

fn next_word(words: &mut ChaCha8Rng) -> u32
    requires { words.old.word_pos < 2 ^ 68 }
    ensures first { result ≡ nth_word words.old 0 }
    ensures moved { words.new ≡ words_after words.old 1 }
{
    words.next_word()
}

fn integer_from(words: &mut ChaCha8Rng, lo: i128, hi: i128) -> i128
    requires place { words.old.word_pos < 2 ^ 68 }
    requires within { IsShape (Int lo hi) }
    ensures made { result ≡ integer_of words.old lo hi }
    ensures moved { words.new ≡ words_after words.old (words_read words.old (Int lo hi)) }
{
    match next_word(words) % 8 {
        0 => lo,
        1 => hi,
        2 => 0,
        _ => {
            let low = u128::from(next_word(words));
            let high = u128::from(next_word(words));
            let above = (low + 0x1_0000_0000 * high) % (hi.abs_diff(lo) + 1);
            lo + above as i128
        }
    }
}

fn octets_from(
    alloc: Global,
    words: &mut ChaCha8Rng,
    min: u8,
    max: u8,
    size: u16,
) -> Result<Octets, NoMemory>
    requires place { words.old.word_pos < 2 ^ 68 }
    requires ordered { min ≤ max }
    requires some { 1 ≤ size }
    requires bytes { size ≤ 256 }
    ensures made { let count = length_of words.old min max in
        IfOk result (λ octets. octets ≡ numbers_of words.old size count) }
    ensures moved { let count = length_of words.old min max in
        OnOk result (words.new ≡ words_after words.old (1 + count)) }
    ensures part { let count = length_of words.old min max in OnErr result (HasReadUpTo (1 + count) words.old words.new) }
    ensures place { words.new.word_pos < 2 ^ 68 }
{
    let count = u32::from(min) + next_word(words) % (u32::from(max - min) + 1);
    let mut octets = Octets::empty(alloc);
    for _ in 0..count {
        octets.push((next_word(words) % u32::from(size)) as u8)?;
    }
    Ok(octets)
}
