//! What does not depend on numbers.

ghost use Rattle.renaming_laws.specs.Laws.{RenamedHasAsMany, RenamedIsAlike, RenamedTurns, SomeAreRenamed};

/// Systems that differ by a numbering of variables, sites, functions and constraints are accepted
/// alike, have the same bounds exceeded, and the same elements printed.
pub fn renamed_is_alike()
    ensures { RenamedIsAlike }
{}

/// Of two such systems each is the other under its numbers, so neither has a constraint more.
pub fn renamed_turns()
    ensures { RenamedTurns }
{}

/// They have as many constraints, and as many sites.
pub fn renamed_has_as_many()
    ensures { RenamedHasAsMany }
{}

/// Two systems differ in all of their numbers.
pub fn some_are_renamed()
    ensures { SomeAreRenamed }
{}
