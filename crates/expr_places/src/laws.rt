//! Laws of the places of faults in expressions and initialisers.

ghost use Rattle.expr_places.specs.Laws.{ExprsArePlaced, InitListsArePlaced};

use c_specs::{mixes_go_on, whole_are_mixes};

/// Over readers inside that owe what is listed, those of expressions refuse what they should, and a number completes them.
pub fn exprs_are_placed()
    ensures { ExprsArePlaced }
{
    whole_are_mixes();
    mixes_go_on();
}

/// Over readers inside that owe what is listed, those of initialisers in braces refuse what they should, and `{ }` completes
/// them.
pub fn init_lists_are_placed()
    ensures { InitListsArePlaced }
{
    whole_are_mixes();
    mixes_go_on();
}
