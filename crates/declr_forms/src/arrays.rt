//! Brackets behind a declarator (C99, 6.7.5.2).
//!
//! `depth` is the number of the readers of lists that the lent one gives; `room` is the greatest
//! height that the tree may have.

ghost use Rattle.c_reading.specs.Declaring as declaring;
ghost use Rattle.c_reading.specs.Knot.{knot};
ghost use Rattle.declr_forms.specs.Views.{ReadsSize};
ghost use Rattle.reader_base.specs.Lent.{Lends, ReadsDeclr, declared_of};

use c_nodes::{SizedSize, no_size, size_star, size_value, with_array};
use c_reading::Reach;
use reader_base::{
    Answer, Ask, Begun, Cursor, Declared, ReadError, array_words, close_bracket, expr_inside,
    is_close_bracket, is_star, kind_at, take_one,
};

/// A size that begins with a star: this alone, or an expression.
#[tactic(auto, unfolding(c_reading::specs::Declaring::star_size, c_reading::specs::Reading::and_then))]
fn star_size<'a, F>(
    lent: &F,
    room: u16,
    cursor: &mut Cursor<'a>,
    depth: u32,
) -> Result<SizedSize, ReadError>
where
    F: Fn(Ask, &mut Cursor<'a>) -> Result<Answer, ReadError>,
    requires { Lends F.Fn lent.now depth }
    ensures { ReadsSize cursor.old cursor.new result (declaring.star_size (knot depth) room) }
{
    let token = take_one(cursor)?;
    if is_close_bracket(kind_at(cursor.rest)) {
        return Ok(size_star(token));
    }
    let inner = room.saturating_sub(1);
    let value = expr_inside(
        lent,
        Reach::Assigned,
        Begun::Star(token),
        inner,
        cursor,
        depth,
    )?;
    Ok(size_value(value))
}

/// `[assign | *]`, before the closing bracket.
#[tactic(auto, unfolding(c_reading::specs::Declaring::size_with, c_reading::specs::Reading::and_then))]
fn size<'a, F>(
    lent: &F,
    room: u16,
    cursor: &mut Cursor<'a>,
    depth: u32,
) -> Result<SizedSize, ReadError>
where
    F: Fn(Ask, &mut Cursor<'a>) -> Result<Answer, ReadError>,
    requires { Lends F.Fn lent.now depth }
    ensures { ReadsSize cursor.old cursor.new result (declaring.size_with (knot depth) room) }
{
    if is_close_bracket(kind_at(cursor.rest)) {
        return Ok(no_size());
    }
    if is_star(kind_at(cursor.rest)) {
        return star_size(lent, room, cursor, depth);
    }
    let inner = room.saturating_sub(1);
    let value = expr_inside(lent, Reach::Assigned, Begun::Nothing, inner, cursor, depth)?;
    Ok(size_value(value))
}

/// `[ (static | qual)* [assign | *] ]`, behind a declarator or none.
#[tactic(auto, unfolding(c_reading::specs::Declaring::array_with, c_reading::specs::Reading::and_then), using(crate::proofs::Named::named_array))]
pub(crate) fn array<'a, F>(
    lent: &F,
    known: Declared,
    room: u16,
    cursor: &mut Cursor<'a>,
    depth: u32,
) -> Result<Declared, ReadError>
where
    F: Fn(Ask, &mut Cursor<'a>) -> Result<Answer, ReadError>,
    requires { Lends F.Fn lent.now depth }
    ensures { ReadsDeclr cursor.old cursor.new result
        (declaring.array_with (knot depth) (declared_of known) room) }
{
    let opening = take_one(cursor)?;
    let words = array_words(cursor)?;
    let size = size(lent, room, cursor, depth)?;
    let closing = close_bracket(cursor)?;
    let declr = with_array(cursor.alloc, known.declr, opening, words, size, closing)?;
    Ok(Declared {
        declr,
        closed: known.closed,
    })
}
