//! Values behind a sign: the width of a member and the value of an enumerator.

ghost use Rattle.reader_base.specs.Lent.{Lends};
ghost use Rattle.spec_forms.specs.Forms.{ReadsValue, value_at};

use c_nodes::SizedValue;
use c_reading::Reach;
use decl_nodes::{no_value, some_value};
use reader_base::{Answer, Ask, Begun, Cursor, ReadError, expr_inside, room_for, take_one};

/// A value behind its sign, which stands there, or none.
#[tactic(auto, unfolding(c_reading::specs::Reading::fits, c_reading::specs::Reading::and_then))]
pub(crate) fn value<'a, F>(
    lent: &F,
    stands: bool,
    room: u16,
    cursor: &mut Cursor<'a>,
    depth: u32,
) -> Result<SizedValue, ReadError>
where
    F: Fn(Ask, &mut Cursor<'a>) -> Result<Answer, ReadError>,
    requires { Lends F.Fn lent.now depth }
    ensures { ReadsValue cursor.old cursor.new result (value_at depth stands room) }
{
    if !stands {
        return Ok(no_value());
    }
    room_for(2, room, cursor)?;
    let token = take_one(cursor)?;
    let inside = room.saturating_sub(1);
    let found = expr_inside(
        lent,
        Reach::Conditional,
        Begun::Nothing,
        inside,
        cursor,
        depth,
    )?;
    Ok(some_value(token, found))
}
