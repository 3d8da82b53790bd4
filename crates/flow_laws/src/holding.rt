//! What a path proof that holds shows.

ghost use Rattle.flow_laws.specs.Holding.{HoldsLeads, HoldsRefutes, HoldsRefutesWithin};
ghost use Rattle.flow_laws.specs.Holding.{HoldsIsUnmet, HoldsRejects};

/// A path proof that holds leads from a constant to the bound that it ends in, which is not above the constant.
pub fn holds_leads()
    ensures { HoldsLeads }
{}

/// That bound is exceeded.
pub fn holds_refutes()
    ensures { HoldsRefutes }
{}

/// It is exceeded at a depth of at most the number of steps of the main path and of all sub-paths.
pub fn holds_refutes_within()
    ensures { HoldsRefutesWithin }
{}

/// So nothing meets the unfolding at a depth of at most that many.
pub fn holds_is_unmet()
    ensures { HoldsIsUnmet }
{}

/// Then the program is not accepted.
pub fn holds_rejects()
    ensures { HoldsRejects }
{}
