//! When a well owned system is accepted, what is printed of it, and which of its bounds are exceeded.

ghost use Rattle.flow_laws.specs.Accepting.{CopiesStand, KeptIsAccepted, SolutionIsPrinted};
ghost use Rattle.flow_laws.specs.Accepting.{ExceededIsOver, OverIsExceeded};
ghost use Rattle.flow_laws.specs.Deciding.{TestsDecide, TestsSolve};

/// Where it can be tested what reaches a copy, a least element above that stands.
pub fn copies_stand()
    ensures { CopiesStand }
{}

/// A system whose solution keeps the bounds is accepted.
pub fn kept_is_accepted()
    ensures { KeptIsAccepted }
{}

/// Then the solution is what is printed.
pub fn solution_is_printed()
    ensures { SolutionIsPrinted }
{}

/// The solution is not at or below an exceeded bound.
pub fn exceeded_is_over()
    ensures { ExceededIsOver }
{}

/// A bound that the solution is not at or below is exceeded.
pub fn over_is_exceeded()
    ensures { OverIsExceeded }
{}

/// Where it can be tested what leads where in a lattice, its bounds and what is printed of it are decided.
pub fn tests_solve()
    ensures { TestsSolve }
{}

/// Where it can be tested what leads where, a system is rejected exactly where some bound is exceeded, and is solved where
/// none is.
pub fn tests_decide()
    ensures { TestsDecide }
{}
