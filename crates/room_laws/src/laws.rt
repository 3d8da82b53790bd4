//! Laws of units and their heights.

ghost use Rattle.room_laws.specs.Rooms.{MoreRoomIsMore, AnyHeightIsRead, AnyUnitIsWellFormed};

use c_specs::{mixes_go_on, whole_are_mixes};

/// With more room a unit is read alike: it is answered the same, and the same token is refused with the same fault, unless
/// that is the height.
pub fn more_room_is_more()
    ensures { MoreRoomIsMore }
{}

/// A unit that is well formed but for its height is read with room for it.
pub fn any_height_is_read()
    ensures { AnyHeightIsRead }
{
    whole_are_mixes();
    mixes_go_on();
}

/// What is read with any room is well formed but for its height.
pub fn any_unit_is_well_formed()
    ensures { AnyUnitIsWellFormed }
{
    whole_are_mixes();
    mixes_go_on();
}
