//! Laws of what stands at key tokens, on trees.

ghost use Rattle.expr_type_laws.specs.Finding.{ShapesAreFound};
ghost use Rattle.expr_type_laws.specs.Standing.{ExpressionsStand};

use resolve_laws::shape_laws::shapes_are_left;
use row_laws::key_laws::tokens_are_once;

/// Each expression of a tree stands at its key token along the tape, with its shape.
pub fn expressions_stand()
    ensures { ExpressionsStand }
{
    shapes_are_left();
}

/// In a program of units that were read, what is found at the key token of each expression is its shape: no two expressions of a
/// unit have one key token.
pub fn shapes_are_found()
    ensures { ShapesAreFound }
{
    expressions_stand();
    tokens_are_once();
}
