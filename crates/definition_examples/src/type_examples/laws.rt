//! What the definitions of names and types say of the examples.

ghost use Rattle.definition_examples.specs.TypeExamples.Examples.{ExamplesHold};
ghost use Rattle.definition_examples.specs.TypeExamples.Several.{SeveralHold};
ghost use Rattle.definition_examples.specs.TypeExamples.Wider.{WiderHold};

/// The definitions say of each example what was worked out for it: its first fault, or, where it has none, for each name that
/// it declares the type, the first declaration and the owner.
pub fn examples_hold()
    ensures { ExamplesHold }
{}

/// The definitions say of each program of several sources what was worked out for it: its faults, and of declarations where what
/// they are of was first declared, in their unit and in all units.
pub fn examples_of_several_hold()
    ensures { SeveralHold }
{}

/// The definitions say of each example of wider C what was worked out for it.
pub fn wider_examples_hold()
    ensures { WiderHold }
{}
