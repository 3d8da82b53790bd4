//! What a function with a varying number of arguments takes them by (C99, 7.15).

ghost use Rattle.c_tree.specs.Tree.{va_copy, va_start};
ghost use Rattle.reader_base.specs.Lent.{Lends, ReadsExpr};
ghost use Rattle.expr_forms.specs.Parts.{va_arg_at, va_two_at};

use crate::postfix::postfixed;
use c_nodes::SizedExpr;
use c_reading::Reach;
use reader_base::{
    Answer, Ask, Begun, Cursor, ReadError, close_paren, comma, expr_inside, open_paren, room_for,
    take_one, type_name_inside,
};

/// `VaArg = __builtin_va_arg ( assign , TypeName )`, with its postfix forms.
#[tactic(auto, unfolding(c_reading::specs::Expressing::va_arg_with, c_reading::specs::Reading::fits, c_reading::specs::Reading::and_then))]
pub(crate) fn va_arg<'a, F>(
    lent: &F,
    room: u16,
    cursor: &mut Cursor<'a>,
    depth: u32,
) -> Result<SizedExpr, ReadError>
where
    F: Fn(Ask, &mut Cursor<'a>) -> Result<Answer, ReadError>,
    requires { Lends F.Fn lent.now depth }
    ensures { ReadsExpr cursor.old cursor.new result (va_arg_at depth room) }
{
    room_for(3, room, cursor)?;
    let inside = room.saturating_sub(1);
    let keyword = take_one(cursor)?;
    let opening = open_paren(cursor)?;
    let list = expr_inside(lent, Reach::Assigned, Begun::Nothing, inside, cursor, depth)?;
    let separator = comma(cursor)?;
    let of = type_name_inside(lent, inside, cursor, depth)?;
    let closing = close_paren(cursor)?;
    let made = c_nodes::va_arg(cursor.alloc, keyword, opening, list, separator, of, closing)?;
    postfixed(lent, made, room, cursor, depth)
}

/// `VaStart = __builtin_va_start ( assign , assign )`, with its postfix forms.
#[tactic(auto, unfolding(c_reading::specs::Expressing::va_two_with, c_reading::specs::Reading::fits, c_reading::specs::Reading::and_then))]
pub(crate) fn va_start<'a, F>(
    lent: &F,
    room: u16,
    cursor: &mut Cursor<'a>,
    depth: u32,
) -> Result<SizedExpr, ReadError>
where
    F: Fn(Ask, &mut Cursor<'a>) -> Result<Answer, ReadError>,
    requires { Lends F.Fn lent.now depth }
    ensures { ReadsExpr cursor.old cursor.new result (va_two_at depth va_start room) }
{
    room_for(2, room, cursor)?;
    let inside = room.saturating_sub(1);
    let keyword = take_one(cursor)?;
    let opening = open_paren(cursor)?;
    let list = expr_inside(lent, Reach::Assigned, Begun::Nothing, inside, cursor, depth)?;
    let separator = comma(cursor)?;
    let last = expr_inside(lent, Reach::Assigned, Begun::Nothing, inside, cursor, depth)?;
    let closing = close_paren(cursor)?;
    let made = c_nodes::va_start(
        cursor.alloc,
        keyword,
        opening,
        list,
        separator,
        last,
        closing,
    )?;
    postfixed(lent, made, room, cursor, depth)
}

/// `VaCopy = __builtin_va_copy ( assign , assign )`, with its postfix forms.
#[tactic(auto, unfolding(c_reading::specs::Expressing::va_two_with, c_reading::specs::Reading::fits, c_reading::specs::Reading::and_then))]
pub(crate) fn va_copy<'a, F>(
    lent: &F,
    room: u16,
    cursor: &mut Cursor<'a>,
    depth: u32,
) -> Result<SizedExpr, ReadError>
where
    F: Fn(Ask, &mut Cursor<'a>) -> Result<Answer, ReadError>,
    requires { Lends F.Fn lent.now depth }
    ensures { ReadsExpr cursor.old cursor.new result (va_two_at depth va_copy room) }
{
    room_for(2, room, cursor)?;
    let inside = room.saturating_sub(1);
    let keyword = take_one(cursor)?;
    let opening = open_paren(cursor)?;
    let target = expr_inside(lent, Reach::Assigned, Begun::Nothing, inside, cursor, depth)?;
    let separator = comma(cursor)?;
    let source = expr_inside(lent, Reach::Assigned, Begun::Nothing, inside, cursor, depth)?;
    let closing = close_paren(cursor)?;
    let made = c_nodes::va_copy(
        cursor.alloc,
        keyword,
        opening,
        target,
        separator,
        source,
        closing,
    )?;
    postfixed(lent, made, room, cursor, depth)
}
