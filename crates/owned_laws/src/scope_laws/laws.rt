//! Laws of where the names of units are declared, and where they stay.

ghost use Rattle.owned_laws.specs.ScopeLaws.Apart.{DeclarationsDiffer, NamesAreApart};
ghost use Rattle.owned_laws.specs.ScopeLaws.Staying.{NamesStay};

use crate::tape_laws::items_are_bracketed;
use resolve_laws::name_laws::names_of_tapes;

/// No two declarations of units are at one place, where no two ops stand at one place.
pub fn declarations_differ()
    ensures { DeclarationsDiffer }
{
    names_of_tapes();
}

/// No name is declared at the token of an expression, where no two ops stand at one place.
pub fn names_are_apart()
    ensures { NamesAreApart }
{
    names_of_tapes();
}

/// What a name in an item of a unit means is declared in that item, or is a function or nobody's object, where no two ops stand at
/// one place.
pub fn names_stay()
    ensures { NamesStay }
{
    names_of_tapes();
    items_are_bracketed();
}
