ghost use Rattle.pt_typing.specs.Laws.{ExprsAreDecided, StratsAreDecided, StmtsAreDecided, SuitesAreDecided, ChecksComeToThese};

/// An expression has a type or a first fault, and not both, and one fault at most.
pub fn exprs_are_decided()
    ensures { ExprsAreDecided }
{}

/// A strategy gives values of a type or has a first fault, and not both, and one fault at most.
pub fn strats_are_decided()
    ensures { StratsAreDecided }
{}

/// Statements leave names with types behind them or have a first fault, and not both, and one fault at most.
pub fn stmts_are_decided()
    ensures { StmtsAreDecided }
{}

/// A suite is well typed or has a first fault, and not both, and one fault at most.
pub fn suites_are_decided()
    ensures { SuitesAreDecided }
{}

/// The functions by which a check is said come to what the relations say.
pub fn checks_come_to_these()
    ensures { ChecksComeToThese }
{}
