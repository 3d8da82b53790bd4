//! Laws of where skeletons begin, and of the candidates of selections.

ghost use Rattle.row_laws.specs.StartLaws.Laws.{StartsAreFound, StartsOfProgramAreFound, SelectionsAreFound, SelectionsOfProgramAreFound};

use resolve_laws::shape_laws::{addressed_are_left, old_names_are_left, shapes_are_left};

/// Along the tape of a well-formed unit skeletons begin where they do on its tree, in the same order.
pub fn starts_are_found()
    ensures { StartsAreFound }
{
    shapes_are_left();
    addressed_are_left();
    old_names_are_left();
}

/// The skeletons of a program of well-formed units are those that begin along its tapes, in the same order.
pub fn starts_of_program_are_found()
    ensures { StartsOfProgramAreFound }
{
    starts_are_found();
}

/// Along the tape of a unit the candidates of selections are those that they have on its tree, in the same order.
pub fn selections_are_found()
    ensures { SelectionsAreFound }
{
    shapes_are_left();
    addressed_are_left();
    old_names_are_left();
}

/// The candidates of the selections of a program are those that are found along its tapes.
pub fn selections_of_program_are_found()
    ensures { SelectionsOfProgramAreFound }
{
    selections_are_found();
}
