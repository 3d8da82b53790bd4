//! Laws of names over tapes.

ghost use Rattle.resolve_laws.specs.NameLaws.NameLaws.{NamesAreSteps, NamesOfTapes};

use crate::shape_laws::shapes_are_left;

/// The steps over the tape of a well-formed unit find what the unit says of names: its declarations, scopes, tags, uses, types'
/// names and faults, and nothing is begun behind them that is not at its end.
pub fn names_are_steps()
    ensures { NamesAreSteps }
{
    shapes_are_left();
}

/// The steps over the tapes of well-formed units, one after another, find what is known of names behind all of them.
pub fn names_of_tapes()
    ensures { NamesOfTapes }
{
    names_are_steps();
}
