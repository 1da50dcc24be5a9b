//! The table.
ghost use Rattle.cases.specs.Table.{WorkedCalls, WorkedExamples};

/// The worked examples hold of the definitions that all contracts cite.
pub fn worked_examples()
    ensures { WorkedExamples }
{}

/// What the calls on a sheet of a few shots do and answer.
pub fn worked_calls()
    ensures { WorkedCalls }
{}
