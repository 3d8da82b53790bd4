//! Laws of what is allowed.

ghost use Rattle.refusal_rules.specs.Laws.{FirstBadIsAllowed, NoneIsEarlier, UnitsAreTrees, UnitsBeginAsTrees, UnitsBeginAtAnyHeight};

use c_specs::{mixes_go_on, whole_are_mixes};

/// A well-formed unit is a tree of the grammar.
pub fn units_are_trees()
    ensures { UnitsAreTrees }
{
    whole_are_mixes();
    mixes_go_on();
}

/// Where a well-formed unit begins so, a tree does.
pub fn units_begin_as_trees()
    ensures { UnitsBeginAsTrees }
{
    units_are_trees();
}

/// Where a well-formed unit begins so, a unit of any height does.
pub fn units_begin_at_any_height()
    ensures { UnitsBeginAtAnyHeight }
{}

/// Where a well-formed unit begins with the first tokens, no refusal of one of these is allowed.
pub fn none_is_earlier()
    ensures { NoneIsEarlier }
{}

/// The refusal of the first bad token for its syntax is allowed, where the height is not what is wrong.
pub fn first_bad_is_allowed()
    ensures { FirstBadIsAllowed }
{
    units_begin_as_trees();
    units_begin_at_any_height();
}
