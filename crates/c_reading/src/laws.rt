//! Laws of the reader of units, and of the loops of readers.

ghost use Rattle.c_reading.specs.UnitLaws.{UnitIsWellFormed, WellFormedIsRead, OneUnitAtMost};
ghost use Rattle.c_reading.specs.Turns.{TurnsTakeTokens};

use c_specs::{mixes_go_on, whole_are_mixes};

/// What the reader of units answers is a well-formed unit with these tokens, of a height of 500 at most.
pub fn unit_is_well_formed()
    ensures { UnitIsWellFormed }
{
    whole_are_mixes();
    mixes_go_on();
}

/// Every well-formed unit with these tokens, of a height of 500 at most, is the one that the reader of units answers.
pub fn well_formed_is_read()
    ensures { WellFormedIsRead }
{
    whole_are_mixes();
    mixes_go_on();
}

/// Tokens are those of one well-formed unit at most.
pub fn one_unit_at_most()
    ensures { OneUnitAtMost }
{
    whole_are_mixes();
    mixes_go_on();
}

/// Each turn of a loop of readers takes a token.
pub fn turns_take_tokens(number: u32)
    ensures { TurnsTakeTokens number }
{
    whole_are_mixes();
    mixes_go_on();
}
