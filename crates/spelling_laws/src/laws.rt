//! Laws of the numbers of names.

ghost use Rattle.spelling_laws.specs.Spelled.{SpelledNamesDiffer};

use c_lexer::names_are_numbered;

/// Different names of a unit behind others have different numbers, where bytes spell the tokens of all of them.
pub fn spelled_names_differ()
    ensures { SpelledNamesDiffer }
{
    names_are_numbered();
}
