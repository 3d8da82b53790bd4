//! Laws that no look-up of the constraints of C misses.

ghost use Rattle.missing_laws.specs.Laws.{
  ExpressionsHaveSkeletons,
  ExpressionsHaveTypes,
  NothingIsMissing,
  TypedHaveSkeletons,
};
ghost use Rattle.missing_laws.specs.Programs.{
  ProgramsAreSettled,
  ProgramsHaveSkeletons,
  ProgramsMissNothing,
};

/// Each expression whose constraints count has a type, in items without faults whose look-ups are settled.
pub fn expressions_have_types()
    ensures { ExpressionsHaveTypes }
{}

/// An expression that has a type has the skeleton of that type, or of a reference to it where it is a place: where its names and
/// the members of structs have skeletons, and what is fresh in it begins where it is looked for.
pub fn typed_have_skeletons()
    ensures { TypedHaveSkeletons }
{}

/// Each expression whose constraints count has the skeleton of its type, or of a reference to it where it is a place, in items
/// without faults whose look-ups are settled.
pub fn expressions_have_skeletons()
    ensures { ExpressionsHaveSkeletons }
{}

/// No constraint of items whose look-ups are settled stands on a skeleton or a call site that is missing: whatever is put behind
/// those that there are, the constraints are the same.
pub fn nothing_is_missing()
    ensures { NothingIsMissing }
{}

/// What each unit of an accepted program looks up is there: names and types' names are known, and what names mean, members,
/// declarations, what they are linked with, call sites and all that is fresh have skeletons, each of its type.
pub fn programs_are_settled()
    ensures { ProgramsAreSettled }
{}

/// Each expression of an accepted program whose constraints count has the skeleton of its type, or of a reference to it where it
/// is a place.
pub fn programs_have_skeletons()
    ensures { ProgramsHaveSkeletons }
{}

/// No constraint of an accepted program stands on a skeleton or a call site that is missing.
pub fn programs_miss_nothing()
    ensures { ProgramsMissNothing }
{}
