//! The worked examples of docs/, proved of the definitions.

#![tactic(auto)]

ghost use Rattle.examples.specs.Examples.{WorkedExamples};

/// Every worked example holds.
pub fn examples_hold()
    ensures examples { WorkedExamples }
{}
