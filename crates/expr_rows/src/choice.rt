//! Which operator goes on with a row.

ghost use Rattle.expr_rows.specs.OpRows.Rows.{row_of};
ghost use Rattle.expr_rows.specs.Turning.{IsChosen};

use crate::op_rows::OpRow;
use c_reading::{FaultKind, Infix, Reach};
use c_tree::Lexeme;
use reader_base::{ReadError, infix_of, kind_at, refused, takes_assign, takes_comma};

/// What the first token is between the row and a further operand, or none where the row ends.
///
/// An assignment to what is no unary form is refused, also where an expression of this reach takes
/// none, since it ends no other expression. Constant time.
pub(crate) fn chosen(
    reach: Reach,
    row: &OpRow,
    tokens: &[Lexeme],
) -> Result<Option<Infix>, ReadError>
    ensures { IsChosen reach (row_of row.now) tokens.now result }
{
    let form = infix_of(kind_at(tokens));
    let goes_on = match form {
        Infix::Comma => takes_comma(reach),
        Infix::Assign(_) => {
            if !row.is_target() {
                return Err(refused(FaultKind::BadTarget, tokens));
            }
            takes_assign(reach)
        }
        Infix::Question | Infix::Binary(_) => true,
        Infix::Nothing => false,
    };
    if goes_on { Ok(Some(form)) } else { Ok(None) }
}
