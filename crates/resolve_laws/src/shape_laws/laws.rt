//! Laws of the steps over tapes, on well-formed trees.

ghost use Rattle.resolve_laws.specs.ShapeLaws.Laws.{ShapesAreLeft, AddressedAreLeft, OldNamesAreLeft, UnitsLeaveNothing, FaultsAreFound, FirstFaultIsFound, NoneIsFound};

/// The tape of an expression leaves its shape, and whether it is a zero.
pub fn shapes_are_left()
    ensures { ShapesAreLeft }
{}

/// The tape of an expression whose place is only addressed leaves the same.
pub fn addressed_are_left()
    ensures { AddressedAreLeft }
{}

/// The tape of a declarator with a list of identifiers leaves its name.
pub fn old_names_are_left()
    ensures { OldNamesAreLeft }
{}

/// The tape of a unit leaves the stacks as they were.
pub fn units_leave_nothing()
    ensures { UnitsLeaveNothing }
{}

/// The faults that are found on the tape of a unit are those of its expressions and initialisers.
pub fn faults_are_found()
    ensures { FaultsAreFound }
{}

/// The first fault of a program is the first one of its names' faults and of those that are found on its tapes.
pub fn first_fault_is_found()
    ensures { FirstFaultIsFound }
{}

/// A program has no fault exactly where its names have none and none is found on its tapes.
pub fn none_is_found()
    ensures { NoneIsFound }
{}
