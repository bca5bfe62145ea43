//! The worked examples: a proved table in specs/, of which nothing runs, and tests of every limit.
#![tactic(auto)]

ghost use Rattle.cases.specs.Examples.{WorkedExamples};

#[cfg(test)]
mod tests;

/// That the blade task, its plans, its sets and its proofs are read and judged as the table of examples says.
pub fn worked_examples_hold()
    ensures { WorkedExamples }
{}
