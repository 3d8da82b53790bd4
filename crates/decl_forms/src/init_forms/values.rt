//! One initialiser.

ghost use Rattle.c_reading.specs.Initialising.{init_with, init_here};
ghost use Rattle.c_reading.specs.Knot.{knot};
ghost use Rattle.decl_forms.specs.InitForms.Seen.{ReadsInit};
ghost use Rattle.reader_base.specs.Lent.{Lends};

use c_nodes::SizedInit;
use c_reading::{FaultKind, Reach};
use decl_nodes::{init_braced, init_value};
use reader_base::{
    Answer, Ask, Begun, Cursor, ReadError, begins_init, expr_inside, init_list_inside,
    is_open_brace, kind_at, refused, room_for,
};

/// An initialiser: an expression without commas, or a list in braces.
#[tactic(auto, unfolding(c_reading::specs::Initialising::init_with, c_reading::specs::Reading::and_then))]
pub fn init<'a, F>(
    lent: &F,
    room: u16,
    cursor: &mut Cursor<'a>,
    depth: u32,
) -> Result<SizedInit, ReadError>
where
    F: Fn(Ask, &mut Cursor<'a>) -> Result<Answer, ReadError>,
    requires { Lends F.Fn lent.now depth }
    ensures { ReadsInit cursor.old cursor.new result (init_with (knot depth) room) }
{
    if is_open_brace(kind_at(cursor.rest)) {
        let list = init_list_inside(lent, room, cursor, depth)?;
        return Ok(init_braced(list));
    }
    let value = expr_inside(lent, Reach::Assigned, Begun::Nothing, room, cursor, depth)?;
    Ok(init_value(value))
}

/// The initialiser of an item, which must begin at the first token.
#[tactic(auto, unfolding(c_reading::specs::Initialising::init_here, c_reading::specs::Reading::fits))]
pub(crate) fn init_here<'a, F>(
    lent: &F,
    room: u16,
    cursor: &mut Cursor<'a>,
    depth: u32,
) -> Result<SizedInit, ReadError>
where
    F: Fn(Ask, &mut Cursor<'a>) -> Result<Answer, ReadError>,
    requires { Lends F.Fn lent.now depth }
    ensures { ReadsInit cursor.old cursor.new result (init_here (knot depth) room) }
{
    if !begins_init(&cursor.scopes, kind_at(cursor.rest)) {
        return Err(refused(FaultKind::Unexpected, cursor.rest));
    }
    room_for(2, room, cursor)?;
    init(lent, room.saturating_sub(1), cursor, depth)
}
