//! What the definitions of trees say by themselves.

ghost use Rattle.c_tree.specs.Ends.{FirstBegins, LastEnds};
ghost use Rattle.c_tree.specs.Laws.{OperandsHoldTighter};

/// An operator asks of each operand that it hold together at least as tightly as the operator with its operands, and
/// of one of them that it hold tighter (C99, 6.5).
pub fn operands_hold_tighter()
    ensures { OperandsHoldTighter }
{}

/// The tokens of a well formed expression begin with that which is called its first.
pub fn first_begins()
    ensures { FirstBegins }
{}

/// The tokens of a well formed expression end with that which is called its last.
pub fn last_ends()
    ensures { LastEnds }
{}
