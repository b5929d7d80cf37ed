ghost use Rattle.std.specs.Prelude.{◌≡◌, ◌++◌, ℕ, List, length, All, IfOk, IfSome, MatchOption};
ghost use Rattle.pt_choice.specs.Limits.{IsInLimits};
ghost use Rattle.pt_wire.specs.Printed.{PrintedChoice};
ghost use Rattle.pt_report.specs.Report.{IsReplay};
ghost use Rattle.pt_report.specs.Explaining.{
  AreMarkLines,
  IsExplanation,
  IsMarkLine,
  IsMarkText,
  IsPrintable,
  together_line,
};

use crate::pieces::{push, push_line};
use crate::report::replayed;
use pt_case::Record;
use pt_choice::{Choice, Choices, NoMemory, Octets};
use pt_explain::{Explained, Mark};
use pt_val::Name;
use pt_wire::print_choices;
use std::alloc::Global;

/// What a replay on an item of this name shows, and of a failure the marks of its choices besides.
pub fn explain_text(
    alloc: Global,
    name: &Name,
    rec: &Record,
    explained: Option<&Explained>,
) -> Result<Octets, NoMemory>
    requires as_many { IfSome explained (λ e. length e.now.marks ≡ length rec.now.choices) }
    requires printable { IfSome explained (λ e. All IsPrintable e.now.marks) }
    ensures { IfOk result (λ text. MatchOption explained.entry
        (IsReplay name.now rec.now text)
        (λ e. IsExplanation name.now rec.now e.now text)) }
{
    let shown = replayed(alloc, name, rec)?;
    match explained {
        Some(explained) => with_marks(alloc, shown.as_slice(), rec, explained),
        None => Ok(shown),
    }
}

// What was shown, the lines of the marks, and what is said of all free choices.
fn with_marks(
    alloc: Global,
    shown: &[u8],
    rec: &Record,
    explained: &Explained,
) -> Result<Octets, NoMemory>
    requires as_many { length explained.now.marks ≡ length rec.now.choices }
    requires printable { All IsPrintable explained.now.marks }
    ensures { IfOk result (λ text. (lines : List ℕ) × AreMarkLines 0 rec.now.choices explained.now.marks lines
        × (text ≡ shown.now ++ (lines ++ together_line explained.now.together))) }
{
    let mut text = Vec::from_slice(alloc, shown)?;
    let lines = mark_lines(alloc, rec.choices.as_slice(), explained.marks.as_slice())?;
    text.extend_from_slice(lines.as_slice())?;
    text.extend_from_slice(together_line(explained.together))?;
    Ok(Octets::from(text))
}

// The line of each choice with its mark.
fn mark_lines(alloc: Global, choices: &[Choice], marks: &[Mark]) -> Result<Octets, NoMemory>
    requires as_many { length marks.now ≡ length choices.now }
    requires in_limits { All IsInLimits choices.now }
    requires printable { All IsPrintable marks.now }
    ensures { IfOk result (AreMarkLines 0 choices.now marks.now) }
{
    let mut text = Vec::new(alloc);
    for place in 0..choices.len() {
        let line = mark_line(alloc, place, &choices[place], &marks[place])?;
        text.extend_from_slice(line.as_slice())?;
    }
    Ok(Octets::from(text))
}

fn mark_line(alloc: Global, place: usize, choice: &Choice, mark: &Mark) -> Result<Octets, NoMemory>
    requires in_limits { IsInLimits choice.now }
    requires printable { IsPrintable mark.now }
    ensures { IfOk result (IsMarkLine place choice.now mark.now) }
{
    let mut text = Vec::new(alloc);
    let number = place.to_string(alloc)?;
    let printed = choice_text(alloc, choice)?;
    let said = mark_text(alloc, mark)?;
    let (number, printed, said) = (number.as_bytes(), printed.as_slice(), said.as_slice());
    push_line(&mut text, &[b"  ", number, b": ", printed, b" ", said])?;
    Ok(Octets::from(text))
}

fn mark_text(alloc: Global, mark: &Mark) -> Result<Octets, NoMemory>
    requires { IsPrintable mark.now }
    ensures { IfOk result (IsMarkText mark.now) }
{
    match mark {
        Mark::Free { tried } => free_text(alloc, *tried),
        Mark::Bound { by } => bound_text(alloc, by),
        Mark::Untried => Octets::of(alloc, b"untried"),
    }
}

fn free_text(alloc: Global, tried: u32) -> Result<Octets, NoMemory>
    ensures { IfOk result (IsMarkText (Mark.Free tried)) }
{
    let mut text = Vec::new(alloc);
    let tried = tried.to_string(alloc)?;
    push(&mut text, &[b"free, ", tried.as_bytes(), b" tried"])?;
    Ok(Octets::from(text))
}

fn bound_text(alloc: Global, by: &Choice) -> Result<Octets, NoMemory>
    requires { IsInLimits by.now }
    ensures { IfOk result (IsMarkText (Mark.Bound by.now)) }
{
    let mut text = Vec::new(alloc);
    let printed = choice_text(alloc, by)?;
    push(&mut text, &[b"bound by ", printed.as_slice()])?;
    Ok(Octets::from(text))
}

// A choice is printed as a list of it alone.
fn choice_text(alloc: Global, choice: &Choice) -> Result<Octets, NoMemory>
    requires { IsInLimits choice.now }
    ensures { IfOk result (PrintedChoice choice.now) }
{
    let only = Choices::from(vec![in alloc; choice.copy()?]?);
    print_choices(alloc, &only)
}

fn together_line(together: Option<bool>) -> &'static [u8]
    ensures { result.now ≡ together_line together }
{
    match together {
        None => b"",
        Some(true) => b"  together: fails alike\n",
        Some(false) => b"  together: differs\n",
    }
}
