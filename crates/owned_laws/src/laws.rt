//! Laws of the constraints along tapes.

ghost use Rattle.owned_laws.specs.Functions.{FunctionsOwnTheirs};
ghost use Rattle.owned_laws.specs.Programs.{SystemsAreOwned};
ghost use Rattle.owned_laws.specs.Tapes.{TapesFit};

use crate::owner_laws::{
    fitting_is_well_owned, instances_fit, parts_stay, rows_fit, skeletons_are_owned,
};
use crate::scope_laws::{declarations_differ, names_are_apart, names_stay};
use crate::tape_laws::items_are_bracketed;
use name_rules::meaning_laws::meanings_are_first;
use resolve_laws::name_laws::names_of_tapes;
use row_laws::key_laws::keys_differ;
use row_laws::rows_are_found;
use row_laws::start_laws::starts_are_found;

/// The constraints along a tape fit, where the skeletons that each op looks up belong to the
/// function around it or to nobody.
pub fn tapes_fit()
    ensures { TapesFit }
{
    rows_fit();
    instances_fit();
    fitting_is_well_owned();
    parts_stay();
    skeletons_are_owned();
}

/// Each object or function of such units that was first declared as a function has a skeleton at that place, of which all
/// variables belong to it.
pub fn functions_own_theirs()
    ensures { FunctionsOwnTheirs }
{
    tapes_fit();
    rows_are_found();
    starts_are_found();
    fitting_is_well_owned();
    skeletons_are_owned();
    names_of_tapes();
    meanings_are_first();
    items_are_bracketed();
    keys_differ();
    declarations_differ();
    names_are_apart();
    names_stay();
}

/// The system of every program is well owned: no flow joins two functions, and each call of a site and each return leads from its
/// owner to its target or back. Its units are well formed of differently numbered tokens, and have different numbers.
pub fn systems_are_owned()
    ensures { SystemsAreOwned }
{
    tapes_fit();
    rows_are_found();
    starts_are_found();
    fitting_is_well_owned();
    names_of_tapes();
    meanings_are_first();
    items_are_bracketed();
    keys_differ();
    declarations_differ();
    names_are_apart();
    names_stay();
}
