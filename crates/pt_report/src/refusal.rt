ghost use Rattle.std.specs.Prelude.{◌≡◌, ◌≢◌, IfOk};
ghost use Rattle.pt_val.specs.declared.place.Place.{Place};
ghost use Rattle.pt_report.specs.declared.refusal.Word.{Word};
ghost use Rattle.pt_report.specs.Refusals.{refusal_text, word_text};

use crate::ending::place_text;
use crate::pieces::push_line;
use pt_choice::{NoMemory, Octets};
use pt_val::Place;
use std::alloc::Global;

/// What is wrong with a suite.
#[derive(Clone, Copy, Debug, PartialEq, Eq)]
pub enum Word {
    NotUtf8,
    Syntax,
    TooDeep,
    OutOfRange,
    Unknown,
    Twice,
    Wrong,
    UnknownCheck,
}

/// Why nothing is done, or nothing more.
#[derive(Clone, Copy, Debug, PartialEq, Eq)]
pub enum Refusal {
    /// The words are no command.
    Usage,
    /// The suite's text has no reading or no typing, and this is its first fault.
    Suite(Place, Word),
    /// The suite's file was not read.
    Read,
    /// A call of the database's folder failed.
    Database,
    /// Two different examples of one item have one digest.
    Clash,
    /// The suite's file has more than 1,048,576 bytes.
    TooLarge,
    /// The suite has no item of the name that a replay or an explanation asks for.
    UnknownItem,
}

/// The line that says so.
pub fn refusal_text(alloc: Global, refusal: &Refusal) -> Result<Octets, NoMemory>
    ensures { IfOk result (λ text. text ≡ refusal_text refusal.now) }
{
    match *refusal {
        Refusal::Suite(place, word) => suite_line(alloc, place, word),
        _ => Octets::of(alloc, fixed_text(refusal)),
    }
}

/// The same of any but a refused suite, whose line alone has a place. It takes no memory.
pub fn fixed_text(refusal: &Refusal) -> &'static [u8]
    requires { (place : Place) (word : Word) → refusal.now ≢ Refusal.Suite place word }
    ensures { result.now ≡ refusal_text refusal.now }
{
    match *refusal {
        Refusal::Usage => {
            b"usage: run SUITE SEED WORKERS | replay SUITE NAME CHOICES | stored | make SEED COUNT | explain SUITE NAME CHOICES\n"
        }
        Refusal::Suite(..) => unreachable!(),
        Refusal::Read => b"suite cannot be read\n",
        Refusal::Database => b"database failed\n",
        Refusal::Clash => b"database clash\n",
        Refusal::TooLarge => b"suite too large\n",
        Refusal::UnknownItem => b"unknown item\n",
    }
}

fn suite_line(alloc: Global, place: Place, word: Word) -> Result<Octets, NoMemory>
    ensures { IfOk result (λ text. text ≡ refusal_text (Refusal.Suite place word)) }
{
    let mut text = Vec::new(alloc);
    let place = place_text(alloc, place)?;
    push_line(
        &mut text,
        &[
            b"suite refused at ",
            place.as_slice(),
            b": ",
            word_text(word),
        ],
    )?;
    Ok(Octets::from(text))
}

fn word_text(word: Word) -> &'static [u8]
    ensures { result.now ≡ word_text word }
{
    match word {
        Word::NotUtf8 => b"not UTF-8",
        Word::Syntax => b"syntax",
        Word::TooDeep => b"too deep",
        Word::OutOfRange => b"out of range",
        Word::Unknown => b"unknown name",
        Word::Twice => b"name twice",
        Word::Wrong => b"wrong type",
        Word::UnknownCheck => b"unknown check",
    }
}
