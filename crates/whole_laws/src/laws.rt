//! Laws of programs that are read.

ghost use Rattle.whole_laws.specs.Programs.{
  PlacesOfReadDiffer,
  ReadProgramsHaveSkeletons,
  ReadProgramsMissNothing,
};

use first_laws::firsts_have_skeletons;
use missing_laws::{programs_have_skeletons, programs_miss_nothing};
use owned_laws::scope_laws::declarations_differ;
use resolve_laws::name_laws::names_of_tapes;
use row_laws::key_laws::keys_differ;
use row_laws::start_laws::{selections_of_program_are_found, starts_of_program_are_found};

/// No two declarations, uses of names or skeletons are at one place, in units that are well formed of differently numbered tokens
/// and have different numbers.
pub fn places_differ()
    ensures { PlacesOfReadDiffer }
{
    keys_differ();
    names_of_tapes();
    declarations_differ();
    starts_of_program_are_found();
    selections_of_program_are_found();
}

/// Each expression of a program that was read and has no fault, whose constraints count, has the skeleton of its type, or of a
/// reference to it where it is a place.
pub fn read_programs_have_skeletons()
    ensures { ReadProgramsHaveSkeletons }
{
    places_differ();
    firsts_have_skeletons();
    programs_have_skeletons();
}

/// No constraint of a program that was read and has no fault stands on a skeleton or a call site that is missing.
pub fn read_programs_miss_nothing()
    ensures { ReadProgramsMissNothing }
{
    places_differ();
    firsts_have_skeletons();
    programs_miss_nothing();
}
