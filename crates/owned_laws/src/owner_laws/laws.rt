//! Laws of the owners of variables.

ghost use Rattle.owned_laws.specs.OwnerLaws.Fitting.{FittingIsWellOwned, ListsFit, StayingFits, LeadingFits, SkeletonsAtAreOwned};
ghost use Rattle.owned_laws.specs.OwnerLaws.Laws.{SkeletonsAreOwned, CallsLead};
ghost use Rattle.owned_laws.specs.OwnerLaws.Rows.{AllPartsInside, RowsFit, InstancesFit};

use flow_rules::{crossings_lead, flows_stay};

/// All variables of a skeleton belong to the function that it begins in, or to nobody; so do those
/// of the skeleton that is found at a place.
pub fn skeletons_are_owned()
    ensures all { SkeletonsAreOwned }
    ensures found { SkeletonsAtAreOwned }
{}

/// Where no two instances of functions begin at one place, each is the site of its number, and each
/// flow between it and the skeleton of its function is a call of that site, or a return.
pub fn calls_lead()
    ensures { CallsLead }
{
    crossings_lead();
}

/// Where all variables of a skeleton belong to one owner or to nobody, so do those of what is in
/// it; what is in no skeleton is none.
pub fn parts_stay()
    ensures { AllPartsInside }
{}

/// A system is well owned where each of its constraints fits. Flows that stay in one function fit,
/// and so do the calls and returns of a site that lead from its owner to its target and back.
pub fn fitting_is_well_owned()
    ensures whole { FittingIsWellOwned }
    ensures lists { ListsFit }
    ensures flows { StayingFits }
    ensures calls { LeadingFits }
{}

/// The constraints of a form fit where the skeletons of its parts belong to one owner or to nobody.
pub fn rows_fit()
    ensures { RowsFit }
{
    flows_stay();
}

/// The constraints of a function's name in an expression fit, where it is an instance of what is
/// named, which is its own, and no two instances are at one place.
pub fn instances_fit()
    ensures { InstancesFit }
{
    calls_lead();
}
