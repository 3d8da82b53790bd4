//! Prefixes of an operand (C99, 6.5.3).

ghost use Rattle.c_reading.specs.Expressing as exprs;
ghost use Rattle.c_reading.specs.Knot.{knot};
ghost use Rattle.reader_base.specs.Lent.{Lends, ReadsExpr};
ghost use Rattle.expr_forms.specs.Parts.{extension_at, prefix_at};

use c_nodes::SizedExpr;
use c_reading::{FaultKind, Reach};
use c_words::Punct;
use reader_base::{
    Answer, Ask, Begun, Cursor, ReadError, expr_inside, name, refused, room_for, take_one,
};

/// `Prefix = (++ | --) unary | (& | * | + | - | ~ | !) cast`.
#[tactic(auto, unfolding(c_reading::specs::Expressing::prefix_with, c_reading::specs::Reading::fits, c_reading::specs::Reading::and_then))]
pub(crate) fn prefix<'a, F>(
    lent: &F,
    sign: Punct,
    reach: Reach,
    room: u16,
    cursor: &mut Cursor<'a>,
    depth: u32,
) -> Result<SizedExpr, ReadError>
where
    F: Fn(Ask, &mut Cursor<'a>) -> Result<Answer, ReadError>,
    requires { Lends F.Fn lent.now depth }
    ensures { ReadsExpr cursor.old cursor.new result (prefix_at depth sign reach room) }
{
    room_for(2, room, cursor)?;
    let token = take_one(cursor)?;
    let inside = room.saturating_sub(1);
    let operand = expr_inside(lent, reach, Begun::Nothing, inside, cursor, depth)?;
    Ok(c_nodes::prefix(cursor.alloc, token, sign, operand)?)
}

/// `Ext = __extension__ cast`.
#[tactic(auto, unfolding(c_reading::specs::Expressing::extension_with, c_reading::specs::Reading::fits, c_reading::specs::Reading::and_then))]
pub(crate) fn extension<'a, F>(
    lent: &F,
    room: u16,
    cursor: &mut Cursor<'a>,
    depth: u32,
) -> Result<SizedExpr, ReadError>
where
    F: Fn(Ask, &mut Cursor<'a>) -> Result<Answer, ReadError>,
    requires { Lends F.Fn lent.now depth }
    ensures { ReadsExpr cursor.old cursor.new result (extension_at depth room) }
{
    room_for(2, room, cursor)?;
    let token = take_one(cursor)?;
    let inside = room.saturating_sub(1);
    let operand = expr_inside(lent, Reach::Castable, Begun::Nothing, inside, cursor, depth)?;
    Ok(c_nodes::extension(cursor.alloc, token, operand)?)
}

/// `Part = part cast`.
#[tactic(auto, unfolding(c_reading::specs::Expressing::part_with, c_reading::specs::Reading::fits, c_reading::specs::Reading::and_then))]
pub(crate) fn part<'a, F>(
    lent: &F,
    room: u16,
    cursor: &mut Cursor<'a>,
    depth: u32,
) -> Result<SizedExpr, ReadError>
where
    F: Fn(Ask, &mut Cursor<'a>) -> Result<Answer, ReadError>,
    requires { Lends F.Fn lent.now depth }
    ensures { ReadsExpr cursor.old cursor.new result (exprs.part_with (knot depth) room) }
{
    room_for(2, room, cursor)?;
    let token = take_one(cursor)?;
    let inside = room.saturating_sub(1);
    let operand = expr_inside(lent, Reach::Castable, Begun::Nothing, inside, cursor, depth)?;
    Ok(c_nodes::complex_part(cursor.alloc, token, operand)?)
}

/// `LabelUse = && Name`, in wider C.
#[tactic(auto, unfolding(c_reading::specs::Expressing::label_use_with, c_reading::specs::Reading::fits, c_reading::specs::Reading::and_then))]
pub(crate) fn label_use(room: u16, cursor: &mut Cursor, depth: u32) -> Result<SizedExpr, ReadError>
    ensures { ReadsExpr cursor.old cursor.new result (exprs.label_use_with (knot depth) room) }
{
    if !cursor.scopes.is_wide() {
        return Err(refused(FaultKind::Unexpected, cursor.rest));
    }
    room_for(1, room, cursor)?;
    let token = take_one(cursor)?;
    let label = name(cursor)?;
    Ok(c_nodes::label_use(cursor.alloc, token, label)?)
}
