//! What the definition of tapes says of the examples.

ghost use Rattle.definition_examples.specs.TapeTests.Examples.{TapesOfExamples};

/// The tape of each example is the one that was worked out for it.
pub fn tapes_of_examples()
    ensures { TapesOfExamples }
{}
