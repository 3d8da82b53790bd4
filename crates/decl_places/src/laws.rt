//! Laws of specifiers, declarators and names of types.

ghost use Rattle.decl_places.specs.Laws.{WordsAreCompleted, SpecsArePlaced, DeclrsArePlaced, TypeNamesArePlaced};

use c_specs::{mixes_go_on, whole_are_mixes};

/// Words with which a mix begins are a whole type, or are one with a word more.
pub fn words_are_completed()
    ensures { WordsAreCompleted }
{}

/// Specifiers are refused as they should be, over readers inside that refuse as they should.
pub fn specs_are_placed()
    ensures { SpecsArePlaced }
{
    whole_are_mixes();
    mixes_go_on();
}

/// So are declarators.
pub fn declrs_are_placed()
    ensures { DeclrsArePlaced }
{
    whole_are_mixes();
    mixes_go_on();
}

/// So are names of types.
pub fn type_names_are_placed()
    ensures { TypeNamesArePlaced }
{
    whole_are_mixes();
    mixes_go_on();
}
