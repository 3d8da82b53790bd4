//! Primary expressions of one token or of strings (C99, 6.5.1).

ghost use Rattle.c_tree.specs.Tree.{char_use, number_use};
ghost use Rattle.reader_base.specs.Lent.{Lends, ReadsExpr};
ghost use Rattle.expr_forms.specs.Parts.{name_at, primary_at, text_at};

use crate::postfix::postfixed;
use c_nodes::SizedExpr;
use c_reading::FaultKind;
use qual_base::NameId;
use reader_base::{Answer, Ask, Cursor, ReadError, refused, room_for, take_one, texts};

/// A number, with its postfix forms.
#[tactic(auto, unfolding(c_reading::specs::Reading::fits, c_reading::specs::Reading::and_then))]
pub(crate) fn number<'a, F>(
    lent: &F,
    room: u16,
    cursor: &mut Cursor<'a>,
    depth: u32,
) -> Result<SizedExpr, ReadError>
where
    F: Fn(Ask, &mut Cursor<'a>) -> Result<Answer, ReadError>,
    requires { Lends F.Fn lent.now depth }
    ensures { ReadsExpr cursor.old cursor.new result (primary_at depth number_use room) }
{
    room_for(1, room, cursor)?;
    let token = take_one(cursor)?;
    let made = c_nodes::number_use(cursor.alloc, token)?;
    postfixed(lent, made, room, cursor, depth)
}

/// A character constant, with its postfix forms.
#[tactic(auto, unfolding(c_reading::specs::Reading::fits, c_reading::specs::Reading::and_then))]
pub(crate) fn character<'a, F>(
    lent: &F,
    room: u16,
    cursor: &mut Cursor<'a>,
    depth: u32,
) -> Result<SizedExpr, ReadError>
where
    F: Fn(Ask, &mut Cursor<'a>) -> Result<Answer, ReadError>,
    requires { Lends F.Fn lent.now depth }
    ensures { ReadsExpr cursor.old cursor.new result (primary_at depth char_use room) }
{
    room_for(1, room, cursor)?;
    let token = take_one(cursor)?;
    let made = c_nodes::char_use(cursor.alloc, token)?;
    postfixed(lent, made, room, cursor, depth)
}

/// Strings one behind another, with their postfix forms: `TextUse = Text+`.
#[tactic(auto, unfolding(c_reading::specs::Expressing::text_with, c_reading::specs::Reading::fits, c_reading::specs::Reading::and_then))]
pub(crate) fn text<'a, F>(
    lent: &F,
    room: u16,
    cursor: &mut Cursor<'a>,
    depth: u32,
) -> Result<SizedExpr, ReadError>
where
    F: Fn(Ask, &mut Cursor<'a>) -> Result<Answer, ReadError>,
    requires { Lends F.Fn lent.now depth }
    ensures { ReadsExpr cursor.old cursor.new result (text_at depth room) }
{
    room_for(1, room, cursor)?;
    let first = take_one(cursor)?;
    let mut tokens = Vec::new(cursor.alloc);
    tokens.push(first)?;
    let more = texts(cursor)?;
    tokens.extend_from_slice(more.as_slice())?;
    let made = c_nodes::text_use(cursor.alloc, tokens)?;
    postfixed(lent, made, room, cursor, depth)
}

/// A name that is no typedef name, with its postfix forms.
#[tactic(auto, unfolding(c_reading::specs::Reading::fits, c_reading::specs::Reading::and_then))]
pub(crate) fn named<'a, F>(
    lent: &F,
    name: NameId,
    room: u16,
    cursor: &mut Cursor<'a>,
    depth: u32,
) -> Result<SizedExpr, ReadError>
where
    F: Fn(Ask, &mut Cursor<'a>) -> Result<Answer, ReadError>,
    requires { Lends F.Fn lent.now depth }
    ensures { ReadsExpr cursor.old cursor.new result (name_at depth name room) }
{
    if cursor.scopes.names_type(name) {
        return Err(refused(FaultKind::Unexpected, cursor.rest));
    }
    room_for(1, room, cursor)?;
    let token = take_one(cursor)?;
    let made = c_nodes::name_use(cursor.alloc, token, name)?;
    postfixed(lent, made, room, cursor, depth)
}
