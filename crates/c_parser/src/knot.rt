//! The readers of all nonterminals, each over the readers of lower trees.

ghost use Rattle.std.specs.Prelude.{◌≡◌};
ghost use Rattle.reader_base.specs.Lent.{ReadsAsked, asked_at};

use decl_forms::init_forms::init_list;
use declr_forms::{declarator, type_name};
use expr_rows::expr;
use reader_base::{Answer, Ask, Cursor, ReadError};
use spec_forms::specifiers;
use stmt_forms::{block, statement};

/// Reads what is asked for, by the readers of the number `depth`.
///
/// A part inside has a room that is lower by one at least, and nothing is read inside at room 0. So where a room is below
/// the number, as that of a unit is, no reader of number 0 is asked; it answers want of memory.
#[cycle(knot)]
#[tactic(auto, unfolding(c_reading::specs::Knot::knot))]
pub(crate) fn read<'a>(ask: Ask, cursor: &mut Cursor<'a>, depth: u32) -> Result<Answer, ReadError>
    ensures { ReadsAsked cursor.old cursor.new result (asked_at depth ask) }
{
    if depth == 0 {
        return Err(ReadError::NoMemory);
    }
    let below = depth - 1;
    let inner = |ask: Ask, cursor: &mut Cursor|
        ensures { ReadsAsked cursor.old cursor.new result (asked_at below ask) }
    { read(ask, cursor, below) };
    match ask {
        Ask::Expr(reach, begun, room) => {
            Ok(Answer::Expr(expr(&inner, reach, begun, room, cursor, below)?))
        }
        Ask::TypeName(room) => Ok(Answer::TypeName(type_name(&inner, room, cursor, below)?)),
        Ask::Specs(role, known, room) => {
            Ok(Answer::Specs(specifiers(&inner, role, known, room, cursor, below)?))
        }
        Ask::Declr(mode, wanted, flag, room) => {
            Ok(Answer::Declr(declarator(&inner, mode, wanted, flag, room, cursor, below)?))
        }
        Ask::InitList(room) => Ok(Answer::InitList(init_list(&inner, room, cursor, below)?)),
        Ask::Block(room) => Ok(Answer::Block(block(&inner, room, cursor, below)?)),
        Ask::Stmt(room) => Ok(Answer::Stmt(statement(&inner, room, cursor, below)?)),
    }
}
