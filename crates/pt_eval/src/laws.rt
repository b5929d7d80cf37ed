ghost use Rattle.pt_eval.specs.Laws.{ValuesKeepTypes};

/// The value of a well typed expression has its type.
pub fn values_keep_types()
    ensures { ValuesKeepTypes }
{}
