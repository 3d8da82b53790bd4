//! One operand, by its first token.

ghost use Rattle.reader_base.specs.Lent.{Lends, ReadsExpr};
ghost use Rattle.expr_forms.specs.Parts.{cast_at, unary_at, unary_by_at};

use crate::offsets::offset;
use crate::parens::opened;
use crate::picks::{choose, compat, generic};
use crate::prefixes::{extension, label_use, part, prefix};
use crate::primaries::{character, named, number, text};
use crate::sizes::sizeof;
use crate::variadic::{va_arg, va_copy, va_start};
use c_nodes::SizedExpr;
use c_reading::{FaultKind, Opening};
use reader_base::{Answer, Ask, Cursor, ReadError, is_open_paren, kind_at, opening_of, refused};

/// A unary form by what it begins with.
#[tactic(auto, unfolding(c_reading::specs::Expressing::unary_by))]
fn unary_by<'a, F>(
    lent: &F,
    opening: Opening,
    room: u16,
    cursor: &mut Cursor<'a>,
    depth: u32,
) -> Result<SizedExpr, ReadError>
where
    F: Fn(Ask, &mut Cursor<'a>) -> Result<Answer, ReadError>,
    requires { Lends F.Fn lent.now depth }
    ensures { ReadsExpr cursor.old cursor.new result (unary_by_at depth opening room) }
{
    match opening {
        Opening::Prefix(sign, reach) => prefix(lent, sign, reach, room, cursor, depth),
        Opening::Sizeof(keyword) => sizeof(lent, keyword, room, cursor, depth),
        Opening::Extension => extension(lent, room, cursor, depth),
        Opening::Name(name) => named(lent, name, room, cursor, depth),
        Opening::Number => number(lent, room, cursor, depth),
        Opening::Char => character(lent, room, cursor, depth),
        Opening::Text => text(lent, room, cursor, depth),
        Opening::Paren => opened(lent, false, room, cursor, depth),
        Opening::VaArg => va_arg(lent, room, cursor, depth),
        Opening::VaStart => va_start(lent, room, cursor, depth),
        Opening::VaCopy => va_copy(lent, room, cursor, depth),
        Opening::Offset => offset(lent, room, cursor, depth),
        Opening::Part => part(lent, room, cursor, depth),
        Opening::Label => label_use(room, cursor, depth),
        Opening::Compat => compat(lent, room, cursor, depth),
        Opening::Choose => choose(lent, room, cursor, depth),
        Opening::Generic => generic(lent, room, cursor, depth),
        Opening::Nothing => Err(refused(FaultKind::Unexpected, cursor.rest)),
    }
}

/// A unary form (C99, 6.5.3): `unary = postfix | Prefix | Sizeof | SizeofType | Ext`.
///
/// Linear in the tokens, of which each is looked at once.
#[tactic(auto, unfolding(c_reading::specs::Expressing::unary_with))]
pub fn unary<'a, F>(
    lent: &F,
    room: u16,
    cursor: &mut Cursor<'a>,
    depth: u32,
) -> Result<SizedExpr, ReadError>
where
    F: Fn(Ask, &mut Cursor<'a>) -> Result<Answer, ReadError>,
    requires { Lends F.Fn lent.now depth }
    ensures { ReadsExpr cursor.old cursor.new result (unary_at depth room) }
{
    unary_by(lent, opening_of(kind_at(cursor.rest)), room, cursor, depth)
}

/// A cast or a unary form (C99, 6.5.4): `cast = unary | Cast`.
///
/// Linear in the tokens, of which each is looked at once.
#[tactic(auto, unfolding(c_reading::specs::Expressing::cast_with))]
pub fn cast<'a, F>(
    lent: &F,
    room: u16,
    cursor: &mut Cursor<'a>,
    depth: u32,
) -> Result<SizedExpr, ReadError>
where
    F: Fn(Ask, &mut Cursor<'a>) -> Result<Answer, ReadError>,
    requires { Lends F.Fn lent.now depth }
    ensures { ReadsExpr cursor.old cursor.new result (cast_at depth room) }
{
    if is_open_paren(kind_at(cursor.rest)) {
        opened(lent, true, room, cursor, depth)
    } else {
        unary(lent, room, cursor, depth)
    }
}
