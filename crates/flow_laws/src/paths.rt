//! Laws of paths.

ghost use Rattle.flow_laws.specs.PathLaws.{MatchesJoin, ReturningGoesOn, CallingGoesOn};
ghost use Rattle.flow_laws.specs.PathLaws.{ReachesLeads, LeadsInside, ReachedIsTested};

/// Two paths inside a function, one behind the other, are one.
pub fn matches_join()
    ensures { MatchesJoin }
{}

/// A path inside a function goes on from a path that has no call open.
pub fn returning_goes_on()
    ensures { ReturningGoesOn }
{}

/// A path inside a function goes on from a path that has a call open.
pub fn calling_goes_on()
    ensures { CallingGoesOn }
{}

/// What reaches some copy of a variable leads to the variable.
pub fn reaches_leads()
    ensures { ReachesLeads }
{}

/// Nothing leads to a variable above all that constraints name.
pub fn leads_inside()
    ensures { LeadsInside }
{}

/// Tests of paths give a test of what reaches each copy.
pub fn reached_is_tested()
    ensures { ReachedIsTested }
{}
