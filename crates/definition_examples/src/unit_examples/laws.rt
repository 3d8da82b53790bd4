//! What the definitions of units say of the examples.

ghost use Rattle.definition_examples.specs.UnitExamples.Examples.{ExamplesHold};
ghost use Rattle.definition_examples.specs.UnitExamples.Wider.{WiderHold};

/// Each example's tokens are those of its tree; the height of its tree and whether each of its names has the kind of its place
/// are what was worked out for it.
pub fn examples_hold()
    ensures { ExamplesHold }
{}

/// So it is with each example of wider C; what is a form of wider C alone is none in a unit that is not read as such.
pub fn wider_examples_hold()
    ensures { WiderHold }
{}
