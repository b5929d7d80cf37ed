ghost use Rattle.std.specs.Prelude.{◌≡◌, ◌≤◌, true, IfOk, length};
ghost use Rattle.pt_val.specs.Name.{is_name, is_name_byte};
ghost use Rattle.pt_lex.specs.Outcome.{StartsLetter};
ghost use Rattle.pt_lex.specs.Words.{word_text};
ghost use Rattle.pt_lex.specs.reading.Word.{behind_word, all_words, same_text, word_among, word_token};

use pt_ast::{Binder, Func};
use pt_choice::{NoMemory, Octets};
use pt_token::{Kind, Word};
use pt_val::Name;
use std::alloc::Global;

const WORDS: [Word; 61] = [
    Word::Property,
    Word::Machine,
    Word::Check,
    Word::Runs,
    Word::Shrink,
    Word::Steps,
    Word::State,
    Word::Bundle,
    Word::Invariant,
    Word::Rule,
    Word::When,
    Word::Into,
    Word::Draw,
    Word::Let,
    Word::Assume,
    Word::Assert,
    Word::Pick,
    Word::From,
    Word::Set,
    Word::Give,
    Word::If,
    Word::Then,
    Word::Else,
    Word::And,
    Word::Or,
    Word::Not,
    Word::True,
    Word::False,
    Word::Ints,
    Word::Bools,
    Word::Texts,
    Word::Blobs,
    Word::SampledFrom,
    Word::Lists,
    Word::Tuples,
    Word::OneOf,
    Word::Map,
    Word::Filter,
    Word::FlatMap,
    Word::Recursive,
    Word::Again,
    Word::Int,
    Word::Bool,
    Word::Text,
    Word::Bytes,
    Word::Tree,
    Word::List,
    Word::Tuple,
    Word::Func(Func::Len),
    Word::Func(Func::Has),
    Word::Func(Func::Sum),
    Word::Func(Func::Cat),
    Word::Func(Func::Rev),
    Word::Func(Func::Leaf),
    Word::Func(Func::Node),
    Word::Func(Func::Label),
    Word::Func(Func::Kids),
    Word::Func(Func::Labels),
    Word::Binder(Binder::All),
    Word::Binder(Binder::Any),
    Word::Binder(Binder::Each),
];

const MOST_CHARS: usize = 40;

/// A reserved word as it is written.
pub fn word_text(word: Word) -> &'static [u8]
    ensures { result.now ≡ word_text word }
{
    match word {
        Word::Property => b"property",
        Word::Machine => b"machine",
        Word::Check => b"check",
        Word::Runs => b"runs",
        Word::Shrink => b"shrink",
        Word::Steps => b"steps",
        Word::State => b"state",
        Word::Bundle => b"bundle",
        Word::Invariant => b"invariant",
        Word::Rule => b"rule",
        Word::When => b"when",
        Word::Into => b"into",
        Word::Draw => b"draw",
        Word::Let => b"let",
        Word::Assume => b"assume",
        Word::Assert => b"assert",
        Word::Pick => b"pick",
        Word::From => b"from",
        Word::Set => b"set",
        Word::Give => b"give",
        Word::If => b"if",
        Word::Then => b"then",
        Word::Else => b"else",
        Word::And => b"and",
        Word::Or => b"or",
        Word::Not => b"not",
        Word::True => b"true",
        Word::False => b"false",
        Word::Ints => b"ints",
        Word::Bools => b"bools",
        Word::Texts => b"texts",
        Word::Blobs => b"blobs",
        Word::SampledFrom => b"sampled_from",
        Word::Lists => b"lists",
        Word::Tuples => b"tuples",
        Word::OneOf => b"one_of",
        Word::Map => b"map",
        Word::Filter => b"filter",
        Word::FlatMap => b"flatmap",
        Word::Recursive => b"recursive",
        Word::Again => b"self",
        Word::Int => b"int",
        Word::Bool => b"bool",
        Word::Text => b"text",
        Word::Bytes => b"bytes",
        Word::Tree => b"tree",
        Word::List => b"list",
        Word::Tuple => b"tuple",
        Word::Func(Func::Len) => b"len",
        Word::Func(Func::Has) => b"has",
        Word::Func(Func::Sum) => b"sum",
        Word::Func(Func::Cat) => b"cat",
        Word::Func(Func::Rev) => b"rev",
        Word::Func(Func::Leaf) => b"leaf",
        Word::Func(Func::Node) => b"node",
        Word::Func(Func::Label) => b"label",
        Word::Func(Func::Kids) => b"kids",
        Word::Func(Func::Labels) => b"labels",
        Word::Binder(Binder::All) => b"all",
        Word::Binder(Binder::Any) => b"any",
        Word::Binder(Binder::Each) => b"each",
    }
}

/// The reserved word that is spelled so.
fn reserved(text: &[char]) -> Option<Word>
    ensures { result ≡ word_among all_words text.now }
{
    for word in WORDS {
        if is_same(text, word_text(word)) {
            return Some(word);
        }
    }
    None
}

/// Whether the characters are those of these bytes.
fn is_same(text: &[char], bytes: &[u8]) -> bool
    ensures { result ≡ same_text text.now bytes.now }
{
    let mut chars = text;
    let mut rest = bytes;
    loop {
        match (chars.split_first(), rest.split_first()) {
            (Some((char, more)), Some((byte, others))) => {
                if *char != char::from(*byte) {
                    return false;
                }
                chars = more;
                rest = others;
            }
            (None, None) => return true,
            _ => return false,
        }
    }
}

/// What stands behind letters, digits and underscores.
fn behind_word(text: &[char]) -> &[char]
    ensures rest { result.now ≡ behind_word text.now }
    ensures within { length result.now ≤ length text.now }
{
    let mut rest = text;
    while let Some((char, more)) = rest.split_first() {
        if !is_name_char(*char) {
            return rest;
        }
        rest = more;
    }
    rest
}

fn is_name_char(char: char) -> bool
    ensures { result ≡ is_name_byte char }
{
    matches!(char, 'a'..='z' | '0'..='9' | '_')
}

/// The name of these characters.
fn name_of(alloc: Global, text: &[char]) -> Result<Name, NoMemory>
    requires { is_name text.now ≡ true }
    ensures { IfOk result (λ name. name ≡ text.now) }
{
    let mut bytes = Octets::empty(alloc);
    for char in text {
        bytes.push(*char as u8)?;
    }
    Name::of_bytes(alloc, bytes.as_slice()).map_err(|_| NoMemory)
}

/// The reserved word or name at the front, and what follows it.
#[tactic(auto, unfolding(crate::specs::reading::Word::word_token))]
pub(crate) fn read_word(alloc: Global, text: &[char]) -> Result<(Kind, &[char]), NoMemory>
    requires { StartsLetter text.now }
    ensures { IfOk result (λ x. (x.0, x.1.now) ≡ word_token text.now) }
{
    let rest = behind_word(text);
    let word = &text[..text.len() - rest.len()];
    if let Some(which) = reserved(word) {
        return Ok((Kind::Word(which), rest));
    }
    if word.len() > MOST_CHARS {
        return Ok((Kind::LongName, rest));
    }
    Ok((Kind::Name(name_of(alloc, word)?), rest))
}
