//! A law of refusals for the height.

ghost use Rattle.wide_laws.specs.Wide.{WithMoreRoomItPasses};

/// With more room a unit is read alike, and where a token was refused for the height, it goes on behind that token or asks for more room
/// again.
pub fn with_more_room_it_passes()
    ensures { WithMoreRoomItPasses }
{}
