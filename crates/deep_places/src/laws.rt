//! The law of refusals for the height.

ghost use Rattle.deep_places.specs.Laws.{TooDeepIsLate};

use c_specs::{mixes_go_on, whole_are_mixes};

/// A token that is refused for the height has about one token before it for each eight levels of room.
pub fn too_deep_is_late()
    ensures { TooDeepIsLate }
{
    whole_are_mixes();
    mixes_go_on();
}
