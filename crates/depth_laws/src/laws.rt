//! The law of refusals for the height.

ghost use Rattle.depth_laws.specs.Laws.{OnlyTheHeight};

use c_reading::{unit_is_well_formed, well_formed_is_read};
use c_specs::{mixes_go_on, whole_are_mixes};
use deep_places::too_deep_is_late;
use refusal_rules::units_begin_as_trees;
use room_laws::any_unit_is_well_formed;
use unit_places::place_is_first;
use wide_laws::with_more_room_it_passes;

/// A refusal for the height is allowed: some tree of the grammar begins with the tokens up to it, and at least fifty stand before it.
pub fn only_the_height()
    ensures { OnlyTheHeight }
{
    unit_is_well_formed();
    well_formed_is_read();
    whole_are_mixes();
    mixes_go_on();
    place_is_first();
    units_begin_as_trees();
    too_deep_is_late();
    with_more_room_it_passes();
    any_unit_is_well_formed();
}
