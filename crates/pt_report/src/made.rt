ghost use Rattle.std.specs.Prelude.{◌≡◌, ◌++◌, [], ◌∷◌, IfOk};
ghost use Rattle.pt_report.specs.Report.{all_shown, choices_shown, counts_text, line, summary};
ghost use Rattle.pt_report.specs.Sorts.{has_passed, has_failed, has_given_up, how_many};

use crate::pieces::push_line;
use crate::report::counts_text;
use pt_choice::{NoMemory, Octets};
use pt_found::{Finding, Verdict};
use std::alloc::Global;

/// The one line on a suite that was made: how many items it has, what they came to, and how many choices their failures
/// show together.
pub fn summary(alloc: Global, findings: &[Finding]) -> Result<Octets, NoMemory>
    ensures { IfOk result (λ text. text ≡ summary findings.now) }
{
    let mut text = Vec::new(alloc);
    let items = findings.len().to_string(alloc)?;
    let counts = counts_text(alloc, findings)?;
    let choices = all_shown(findings).to_string(alloc)?;
    let (items, counts, choices) = (items.as_bytes(), counts.as_slice(), choices.as_bytes());
    push_line(
        &mut text,
        &[
            items,
            b" items: ",
            counts,
            b", ",
            choices,
            b" choices shown",
        ],
    )?;
    Ok(Octets::from(text))
}

// Findings are fewer than 2^64, and none shows as many choices, so that their sum fits.
fn all_shown(findings: &[Finding]) -> u128
    ensures { result ≡ all_shown findings.now }
{
    let mut total = 0;
    for finding in findings {
        total += choices_shown(&finding.verdict) as u128;
    }
    total
}

fn choices_shown(verdict: &Verdict) -> usize
    ensures { result ≡ choices_shown verdict.now }
{
    match verdict {
        Verdict::Passed | Verdict::GaveUp => 0,
        Verdict::Failed { shown, .. } => shown.choices.len(),
    }
}
