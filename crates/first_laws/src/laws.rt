//! Laws of first declarations.

ghost use Rattle.first_laws.specs.Firsts.{FirstsOfScopedHaveSkeletons};

/// The first declaration of each object, function, parameter and member of well-formed units is one of those too, where no two
/// declarations are at one place and no two names of a unit have one number.
pub fn firsts_have_skeletons()
    ensures { FirstsOfScopedHaveSkeletons }
{}
