//! Laws of rows and groups of tokens.

ghost use Rattle.token_places.specs.Laws.{GroupsAreCompleted, AttrsArePlaced};

/// A group is refused as it should be, and is completed by the brackets that are open in it.
pub fn groups_are_completed()
    ensures { GroupsAreCompleted }
{}

/// A row of attributes is refused as it should be, and may end behind each of them.
pub fn attrs_are_placed()
    ensures { AttrsArePlaced }
{}
