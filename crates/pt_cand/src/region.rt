//! Which spans are regions of their own.

ghost use Rattle.std.specs.Prelude.{◌≡◌, ◌&&◌, not};
ghost use Rattle.std.specs.List.{list_any};
ghost use Rattle.pt_cand.specs.Region.{is_region, same_ends};

use pt_case::Span;

/// Whether there is a choice in the span, and no earlier span has its two ends.
pub(crate) fn is_new(span: Span, earlier: &[Span]) -> bool
    ensures { result ≡ (is_region span && not (list_any (same_ends span) earlier.now)) }
{
    span.from < span.to && !is_seen(span, earlier)
}

// Whether one of these spans has its two ends.
fn is_seen(span: Span, earlier: &[Span]) -> bool
    ensures { result ≡ list_any (same_ends span) earlier.now }
{
    earlier
        .iter()
        .any(|other| span.from == other.from && span.to == other.to)
}
