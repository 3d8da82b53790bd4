//! Laws of the steps over tapes that give constraints.

ghost use Rattle.row_laws.specs.Laws.{ValuesAreLeft, UnitsLeaveNothing, RowsAreFound, ConstraintsAreFound};

/// The tape of an expression leaves its skeleton, and whether it is a zero.
pub fn values_are_left()
    ensures { ValuesAreLeft }
{}

/// The tape of a unit leaves nothing on the stacks.
pub fn units_leave_nothing()
    ensures { UnitsLeaveNothing }
{}

/// The constraints that are found on the tape of a unit are those of its items, in their order.
pub fn rows_are_found()
    ensures { RowsAreFound }
{}

/// The constraints of a program's system are those that are found on the tapes of its units.
pub fn constraints_are_found()
    ensures { ConstraintsAreFound }
{}
