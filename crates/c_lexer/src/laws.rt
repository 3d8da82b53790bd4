//! Laws of the tokens that bytes spell.

ghost use Rattle.c_lexer.specs.Numbering.{NamesAreNumbered};

/// Two names of a unit have one number exactly where the same bytes spell them.
pub fn names_are_numbered()
    ensures { NamesAreNumbered }
{}
