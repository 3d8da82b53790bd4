//! What the definitions of allowed refusals say of the sources.

ghost use Rattle.definition_examples.specs.RefusalExamples.Refusals.{RefusalsHold};
ghost use Rattle.definition_examples.specs.RefusalExamples.Wider.{WiderHold};

use c_specs::{mixes_go_on, whole_are_mixes};
use refusal_rules::{
    none_is_earlier, units_are_trees, units_begin_as_trees, units_begin_at_any_height,
};

/// Of each source, the token that was worked out may be refused with its code, and no earlier one; some wrong refusals are not
/// allowed, and of one source the right one is, whole.
pub fn refusals_hold()
    ensures { RefusalsHold }
{
    whole_are_mixes();
    mixes_go_on();
    units_are_trees();
    units_begin_as_trees();
    units_begin_at_any_height();
    none_is_earlier();
}

/// So it is with sources of wider C; one of them is refused earlier where it is not read as such.
pub fn wider_refusals_hold()
    ensures { WiderHold }
{
    whole_are_mixes();
    mixes_go_on();
    units_are_trees();
    units_begin_as_trees();
    none_is_earlier();
}
