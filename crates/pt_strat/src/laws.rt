ghost use Rattle.pt_strat.specs.Laws.{DerivedIsInSet, LeavesItsSpans, StaysSilent};

/// What a strategy derives is in its set.
pub fn a_derived_value_is_in_the_set()
    ensures { DerivedIsInSet }
{}

/// A strategy leaves the spans that it entered and no others, each of them where it derives a value.
pub fn a_strategy_leaves_its_spans()
    ensures { LeavesItsSpans }
{}

/// A strategy notes nothing.
pub fn a_strategy_notes_nothing()
    ensures { StaysSilent }
{}
