ghost use Rattle.std.specs.Prelude.{◌≡◌, ◌++◌, [], ◌∷◌, IfOk, OnOk};
ghost use Rattle.pt_report.specs.Report.{
  IsBlock,
  IsVerdict,
  IsReplay,
  counts_text,
  failed_line,
  found_line,
  line,
  reduced_text,
  tail,
};
ghost use Rattle.pt_report.specs.Sorts.{has_passed, has_failed, has_given_up, how_many};
ghost use Rattle.pt_found.specs.declared.finding.Verdict.TheVariants.{Passed, GaveUp, Failed};

use crate::ending::ending_text;
use crate::pieces::{push, push_line};
use crate::shown::shown_lines;
use crate::sorts::{failed_count, given_up_count, passed_count};
use pt_case::Record;
use pt_choice::{NoMemory, Octets};
use pt_found::{Finding, Found, Verdict};
use pt_val::Name;
use std::alloc::Global;

/// The lines of one finding.
pub fn block(alloc: Global, finding: &Finding) -> Result<Octets, NoMemory>
    ensures { IfOk result (IsBlock finding.now) }
{
    match &finding.verdict {
        Verdict::Passed => passed_line(alloc, finding),
        Verdict::GaveUp => gave_up_line(alloc, finding),
        Verdict::Failed {
            shown,
            found,
            spent,
        } => failed_lines(alloc, finding, shown, *found, *spent),
    }
}

fn passed_line(alloc: Global, finding: &Finding) -> Result<Octets, NoMemory>
    ensures { IfOk result (IsVerdict finding.now Passed) }
{
    let mut text = Vec::new(alloc);
    let name = finding.name.as_slice();
    let valid = finding.valid.to_string(alloc)?;
    push_line(
        &mut text,
        &[name, b": passed, ", valid.as_bytes(), b" valid"],
    )?;
    Ok(Octets::from(text))
}

fn gave_up_line(alloc: Global, finding: &Finding) -> Result<Octets, NoMemory>
    ensures { IfOk result (IsVerdict finding.now GaveUp) }
{
    let mut text = Vec::new(alloc);
    let name = finding.name.as_slice();
    let valid = finding.valid.to_string(alloc)?;
    let runs = finding.runs.to_string(alloc)?;
    let seen = finding.seen.to_string(alloc)?;
    let (valid, runs, seen) = (valid.as_bytes(), runs.as_bytes(), seen.as_bytes());
    push_line(
        &mut text,
        &[
            name,
            b": gave up, ",
            valid,
            b" of ",
            runs,
            b" valid in ",
            seen,
            b" runs",
        ],
    )?;
    Ok(Octets::from(text))
}

fn failed_lines(
    alloc: Global,
    finding: &Finding,
    shown: &Record,
    found: Found,
    spent: bool,
) -> Result<Octets, NoMemory>
    ensures { IfOk result (IsVerdict finding.now (Failed shown.now found spent)) }
{
    let mut text = Vec::new(alloc);
    push_failed(alloc, &mut text, finding, shown, spent)?;
    push_found(alloc, &mut text, found)?;
    let lines = shown_lines(alloc, shown)?;
    text.extend_from_slice(lines.as_slice())?;
    Ok(Octets::from(text))
}

fn push_failed(
    alloc: Global,
    text: &mut Vec<u8>,
    finding: &Finding,
    shown: &Record,
    spent: bool,
) -> Result<(), NoMemory>
    ensures { OnOk result (text.new.items ≡ text.old.items ++ failed_line finding.now shown.now spent) }
{
    let ending = ending_text(alloc, shown.ending)?;
    let reduced = reduced_text(alloc, spent, finding.budget)?;
    let (ending, reduced) = (ending.as_slice(), reduced.as_slice());
    push_line(
        text,
        &[finding.name.as_slice(), b": ", ending, b", ", reduced],
    )
}

// How far a failure was reduced.
fn reduced_text(alloc: Global, spent: bool, budget: u32) -> Result<Octets, NoMemory>
    ensures { IfOk result (λ text. text ≡ reduced_text spent budget) }
{
    if !spent {
        return Octets::of(alloc, b"minimal");
    }
    let mut text = Vec::new(alloc);
    let budget = budget.to_string(alloc)?;
    push(&mut text, &[b"budget of ", budget.as_bytes(), b" spent"])?;
    Ok(Octets::from(text))
}

fn push_found(alloc: Global, text: &mut Vec<u8>, found: Found) -> Result<(), NoMemory>
    ensures { OnOk result (text.new.items ≡ text.old.items ++ found_line found) }
{
    match found {
        Found::Stored => push_line(text, &[b"  found in the database"]),
        Found::Run(run) => {
            let run = run.to_string(alloc)?;
            push_line(text, &[b"  found in run ", run.as_bytes()])
        }
    }
}

/// What a replay on an item of this name shows.
pub fn replayed(alloc: Global, name: &Name, rec: &Record) -> Result<Octets, NoMemory>
    ensures { IfOk result (IsReplay name.now rec.now) }
{
    let mut text = Vec::new(alloc);
    let ending = ending_text(alloc, rec.ending)?;
    let lines = shown_lines(alloc, rec)?;
    push_line(&mut text, &[name.as_slice(), b": ", ending.as_slice()])?;
    text.extend_from_slice(lines.as_slice())?;
    Ok(Octets::from(text))
}

/// The last line of a run: how many items passed, failed and gave up.
pub fn tail(alloc: Global, findings: &[Finding]) -> Result<Octets, NoMemory>
    ensures { IfOk result (λ text. text ≡ tail findings.now) }
{
    let mut text = Vec::new(alloc);
    let counts = counts_text(alloc, findings)?;
    push_line(&mut text, &[counts.as_slice()])?;
    Ok(Octets::from(text))
}

/// How many of the findings passed, failed and gave up.
pub(crate) fn counts_text(alloc: Global, findings: &[Finding]) -> Result<Octets, NoMemory>
    ensures { IfOk result (λ text. text ≡
        counts_text (how_many has_passed findings.now) (how_many has_failed findings.now) (how_many has_given_up findings.now)) }
{
    let mut text = Vec::new(alloc);
    let passed = passed_count(findings).to_string(alloc)?;
    let failed = failed_count(findings).to_string(alloc)?;
    let gave_up = given_up_count(findings).to_string(alloc)?;
    let (passed, failed, gave_up) = (passed.as_bytes(), failed.as_bytes(), gave_up.as_bytes());
    push(
        &mut text,
        &[
            passed,
            b" passed, ",
            failed,
            b" failed, ",
            gave_up,
            b" gave up",
        ],
    )?;
    Ok(Octets::from(text))
}
