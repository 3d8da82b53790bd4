//! Laws of the place of a syntax fault.

ghost use Rattle.unit_places.specs.Laws.{PlaceIsFirst, HeightAlone, SyntaxIsAllowed};

use c_reading::{unit_is_well_formed, well_formed_is_read};
use c_specs::{mixes_go_on, whole_are_mixes};
use refusal_rules::first_bad_is_allowed;
use room_laws::{any_height_is_read, more_room_is_more};

/// The token that the reader of units refuses is the first up to which no well-formed unit begins so.
pub fn place_is_first()
    ensures { PlaceIsFirst }
{
    unit_is_well_formed();
    well_formed_is_read();
    whole_are_mixes();
    mixes_go_on();
}

/// Where it refuses a token for another fault than the height, no unit of any height begins with the tokens up to it.
pub fn height_alone()
    ensures { HeightAlone }
{
    unit_is_well_formed();
    well_formed_is_read();
    any_height_is_read();
    more_room_is_more();
    whole_are_mixes();
    mixes_go_on();
}

/// A refusal because no form of the grammar goes on so is allowed.
pub fn syntax_is_allowed()
    ensures { SyntaxIsAllowed }
{
    place_is_first();
    height_alone();
    first_bad_is_allowed();
}
