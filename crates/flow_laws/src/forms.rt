//! The form of a path proof that holds.

ghost use Rattle.flow_laws.specs.PathForms.{SubsAreSubPaths, ShownHolds, HoldsExactly, HoldsInSome};

/// Sub-paths that all have steps are sub-paths.
pub fn subs_are_sub_paths()
    ensures { SubsAreSubPaths }
{}

/// A path proof of the form of one, in a lattice of the list, holds.
pub fn shown_holds()
    ensures { ShownHolds }
{}

/// Where constants name elements of lattices, a path proof holds exactly where it has that form.
pub fn holds_exactly()
    ensures { HoldsExactly }
{}

/// Whatever they name, it holds exactly where it has that form in a lattice, of the list or past it.
pub fn holds_in_some()
    ensures { HoldsInSome }
{}
