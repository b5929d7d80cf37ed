ghost use Rattle.std.specs.Prelude.{◌≡◌};
ghost use Rattle.pt_report.specs.Sorts.{has_passed, has_failed, has_given_up, how_many};

use pt_found::{Finding, Verdict};

/// Whether the item passed: a run with no other verdict ends with status 0.
pub fn has_passed(verdict: &Verdict) -> bool
    ensures { result ≡ has_passed verdict.now }
{
    matches!(verdict, Verdict::Passed)
}

pub(crate) fn has_failed(verdict: &Verdict) -> bool
    ensures { result ≡ has_failed verdict.now }
{
    matches!(verdict, Verdict::Failed { .. })
}

pub(crate) fn has_given_up(verdict: &Verdict) -> bool
    ensures { result ≡ has_given_up verdict.now }
{
    matches!(verdict, Verdict::GaveUp)
}

pub(crate) fn passed_count(findings: &[Finding]) -> usize
    ensures { result ≡ how_many has_passed findings.now }
{
    findings.iter().filter(|f| has_passed(&f.verdict)).count()
}

pub(crate) fn failed_count(findings: &[Finding]) -> usize
    ensures { result ≡ how_many has_failed findings.now }
{
    findings.iter().filter(|f| has_failed(&f.verdict)).count()
}

pub(crate) fn given_up_count(findings: &[Finding]) -> usize
    ensures { result ≡ how_many has_given_up findings.now }
{
    findings.iter().filter(|f| has_given_up(&f.verdict)).count()
}
