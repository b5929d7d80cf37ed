ghost use Rattle.tests_typing.specs.ExprRows.{OperatorRows, PostRows, CallRows};
ghost use Rattle.tests_typing.specs.StratRows.{LeafRows, NodeRows};
ghost use Rattle.tests_typing.specs.SuiteRows.{StmtRows, RuleRows, MachineRows, SuiteRows, TypedRows};

/// What operators, branches and brackets make of faulty parts.
pub fn operator_rows()
    ensures { OperatorRows }
{}

/// Faults at indexes and parts.
pub fn post_rows()
    ensures { PostRows }
{}

/// Faults at functions and binders.
pub fn call_rows()
    ensures { CallRows }
{}

/// Faults at strategies that draw one value.
pub fn leaf_rows()
    ensures { LeafRows }
{}

/// Faults at strategies that are made of others.
pub fn node_rows()
    ensures { NodeRows }
{}

/// Faults of statements.
pub fn stmt_rows()
    ensures { StmtRows }
{}

/// Faults of rules.
pub fn rule_rows()
    ensures { RuleRows }
{}

/// Faults of machines.
pub fn machine_rows()
    ensures { MachineRows }
{}

/// Faults of suites.
pub fn suite_rows()
    ensures { SuiteRows }
{}

/// What is well typed, though it may not look so.
pub fn typed_rows()
    ensures { TypedRows }
{}
