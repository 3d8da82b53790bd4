//! Laws of the places of faults in statements and in the items of units.

ghost use Rattle.stmt_places.specs.Laws.{BlocksArePlaced, StmtsArePlaced, ItemsArePlaced};

use c_specs::{mixes_go_on, whole_are_mixes};

/// Over readers inside that owe what is listed, those of blocks refuse what they should, and `{ }` completes them.
pub fn blocks_are_placed()
    ensures { BlocksArePlaced }
{
    whole_are_mixes();
    mixes_go_on();
}

/// Over readers inside that owe what is listed, those of statements refuse what they should, and `;` completes them.
pub fn stmts_are_placed()
    ensures { StmtsArePlaced }
{
    whole_are_mixes();
    mixes_go_on();
}

/// Over readers inside that owe what is listed, the items of a unit are refused where they should be, up to the end.
pub fn items_are_placed()
    ensures { ItemsArePlaced }
{
    whole_are_mixes();
    mixes_go_on();
}
