//! Laws of positions.

ghost use Rattle.unit_starts.specs.PositionLaws.Positions.{PositionsStand, PositionsAreCounted};

/// A variable of a table stands where the list of positions says.
pub fn positions_stand()
    ensures { PositionsStand }
{}

/// There are as many positions as variables.
pub fn positions_are_counted()
    ensures { PositionsAreCounted }
{}
