//! What accepted says of runs.

ghost use Rattle.run_laws.specs.Laws.{RunsAreSafe, SomeRunIsAccepted, SomeRunIsViolated};

/// Where the constraints of a program are accepted, no run of it brings a labelled value to a bound
/// that it is not at or below (Foster et al. 2006, soundness; Rehof and Fähndrich 2001, for copies).
pub fn runs_are_safe()
    ensures { RunsAreSafe }
{}

/// Some run of some program has a violation.
pub fn some_run_is_violated()
    ensures { SomeRunIsViolated }
{}

/// A run of some accepted program brings a labelled value to a bound that it is at or below.
pub fn some_run_is_accepted()
    ensures { SomeRunIsAccepted }
{}
