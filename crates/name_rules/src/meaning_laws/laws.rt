//! Laws of what names mean.

ghost use Rattle.name_rules.specs.MeaningLaws.Meanings.{MeaningsAreFirst};

/// Where no two declarations are at one place, a name means what is declared there for the first
/// time, a function that belongs to itself or something else; a further declaration belongs where
/// the first does, and members of structs belong to nobody. The link of a first declaration is
/// declared: where it is a function, for the first time and as its own link, and else both are
/// functions or belong to nobody.
pub fn meanings_are_first()
    ensures { MeaningsAreFirst }
{}
