//! Laws of every system.

ghost use Rattle.flow_laws.specs.Laws.{LowerIsMet, SolutionStands, SafeKeepsBounds, NamesInEach};
ghost use Rattle.flow_laws.specs.Laws.{JoinsAreSolution, ListIsSolution};
ghost use Rattle.flow_laws.specs.Refuting.{LeadsForce, PathsRefute, ExceededIsRefuted, AcceptedKeepsPaths, MoreIsHarder, NoConstantIsAccepted, OneCopyServes};

/// What meets the unfolding at a depth meets it at each lower one.
pub fn lower_is_met()
    ensures { LowerIsMet }
{}

/// Where it can be tested which elements lead to a variable, a least element above them stands.
pub fn solution_stands()
    ensures { SolutionStands }
{}

/// Where all constants and bounds name elements, those of one lattice do.
pub fn names_in_each()
    ensures { NamesInEach }
{}

/// Where no constant leads to a bound that is not above it, the least elements are below the bounds.
pub fn safe_keeps_bounds()
    ensures { SafeKeepsBounds }
{}

/// The joins of what leads to each variable are a solution.
pub fn joins_are_solution()
    ensures { JoinsAreSolution }
{}

/// A list of least elements is a solution.
pub fn list_is_solution()
    ensures { ListIsSolution }
{}

/// What leads to a variable is forced on one of its copies.
pub fn leads_force()
    ensures { LeadsForce }
{}

/// A path to a bound that is not above its element shows that the bound is exceeded.
pub fn paths_refute()
    ensures { PathsRefute }
{}

/// A system with an exceeded bound is not accepted.
pub fn exceeded_is_refuted()
    ensures { ExceededIsRefuted }
{}

/// In an accepted system no constant leads to a bound that it is not at or below.
pub fn accepted_keeps_paths()
    ensures { AcceptedKeepsPaths }
{}

/// More constraints are harder to meet.
pub fn more_is_harder()
    ensures { MoreIsHarder }
{}

/// A system without a constant is accepted.
pub fn no_constant_is_accepted()
    ensures { NoConstantIsAccepted }
{}

/// What one copy of each function meets is accepted.
pub fn one_copy_serves()
    ensures { OneCopyServes }
{}
