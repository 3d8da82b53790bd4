//! What the definitions of constraints say of the examples.

ghost use Rattle.definition_examples.specs.ConstraintExamples.Examples.{ExamplesHold};
ghost use Rattle.definition_examples.specs.ConstraintExamples.IndexWords.{IndexWordsHold};
ghost use Rattle.definition_examples.specs.ConstraintExamples.Several.{SeveralHold};
ghost use Rattle.definition_examples.specs.ConstraintExamples.Wider.{WiderHold};

/// The system of each example has the constraints, in their order, the call sites and the owners that were worked out for it.
pub fn examples_hold()
    ensures { ExamplesHold }
{}

/// So has that of each example with index words.
pub fn index_words_hold()
    ensures { IndexWordsHold }
{}

/// So has that of each example of several sources.
pub fn examples_of_several_hold()
    ensures { SeveralHold }
{}

/// So has that of each example of wider C.
pub fn wider_examples_hold()
    ensures { WiderHold }
{}
