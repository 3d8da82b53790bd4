//! Functions with bodies (C99, 6.9.1), and declarations that begin as one.

ghost use Rattle.std.specs.Prelude.{◌≡◌};
ghost use Rattle.c_tree.specs.View.{declr_of};
ghost use Rattle.c_reading.specs.Items as units;
ghost use Rattle.c_reading.specs.Knot.{knot};
ghost use Rattle.c_reading.specs.Reading.{kind_at};
ghost use Rattle.reader_base.specs.Lent.{Lends, sized_specs};
ghost use Rattle.c_parser.specs.UnitForms.Listed.{ReadsItem};

use crate::unit_forms::declared::{declaration_with_attrs, declaration_with_label};
use crate::unit_forms::old::{lists_identifiers, old_function};
use c_nodes::{PresentDeclr, SizedSpecs, above};
use c_reading::{FaultKind, Mode};
use c_syntax::{Attr, Item};
use decl_nodes::function_item;
use held_scopes::Closed;
use qual_base::TokenId;
use reader_base::{
    Answer, Ask, Cursor, ReadError, attrs, declr_inside, is_asm, is_comma, is_equal, is_open_brace,
    is_semicolon, kind_at, known_declr, refused, room_above,
};
use stmt_forms::block_body;
use typedef_scope::Kind;

/// Whether a declaration goes on here, behind a declarator and attributes.
fn goes_on_declared(cursor: &Cursor) -> bool
    ensures { result ≡ units.goes_on_declared (kind_at cursor.now.rest.now) }
{
    is_equal(kind_at(cursor.rest))
        || is_comma(kind_at(cursor.rest))
        || is_semicolon(kind_at(cursor.rest))
}

/// The body of a function, behind its declarator and attributes, in the scope of its parameters.
#[tactic(auto, unfolding(c_reading::specs::Items::function_with, c_reading::specs::Reading::and_then))]
fn function_here<'a, F>(
    lent: &F,
    exts: Vec<TokenId>,
    words: SizedSpecs,
    declr: PresentDeclr,
    attrs: Vec<Attr>,
    closed: Closed,
    room: u16,
    cursor: &mut Cursor<'a>,
    depth: u32,
) -> Result<Item, ReadError>
where
    F: Fn(Ask, &mut Cursor<'a>) -> Result<Answer, ReadError>,
    requires { Lends F.Fn lent.now depth }
    ensures { ReadsItem cursor.old cursor.new result (units.function_with (knot depth) exts.items
        (sized_specs words) (declr_of declr.declr.value) attrs.items closed room) }
{
    cursor.scopes.reopen(closed)?;
    let body = block_body(lent, room.saturating_sub(1), cursor, depth)?;
    cursor.scopes.leave();
    Ok(function_item(exts, words, declr, attrs, body))
}

/// The body of a function, or a declaration that goes on, behind a declarator with parameters and
/// attributes.
#[tactic(auto, unfolding(c_reading::specs::Items::function_or_not, c_reading::specs::Reading::fits))]
fn function_or_not<'a, F>(
    lent: &F,
    exts: Vec<TokenId>,
    words: SizedSpecs,
    declr: PresentDeclr,
    attrs: Vec<Attr>,
    closed: Closed,
    room: u16,
    cursor: &mut Cursor<'a>,
    depth: u32,
) -> Result<Item, ReadError>
where
    F: Fn(Ask, &mut Cursor<'a>) -> Result<Answer, ReadError>,
    requires { Lends F.Fn lent.now depth }
    ensures { ReadsItem cursor.old cursor.new result (units.function_or_not (knot depth) exts.items
        (sized_specs words) (declr_of declr.declr.value) attrs.items closed room) }
{
    if is_open_brace(kind_at(cursor.rest)) {
        return function_here(lent, exts, words, declr, attrs, closed, room, cursor, depth);
    }
    if goes_on_declared(cursor) {
        room_above(above(declr.height), room, cursor)?;
        return declaration_with_attrs(lent, exts, words, declr, attrs, room, cursor, depth);
    }
    Err(refused(FaultKind::Unexpected, cursor.rest))
}

/// What stands behind a declarator with parameters directly around its name.
#[tactic(auto, unfolding(c_reading::specs::Items::behind_function, c_reading::specs::Reading::fits, c_reading::specs::Reading::and_then))]
fn behind_function<'a, F>(
    lent: &F,
    exts: Vec<TokenId>,
    words: SizedSpecs,
    declr: PresentDeclr,
    closed: Closed,
    room: u16,
    cursor: &mut Cursor<'a>,
    depth: u32,
) -> Result<Item, ReadError>
where
    F: Fn(Ask, &mut Cursor<'a>) -> Result<Answer, ReadError>,
    requires { Lends F.Fn lent.now depth }
    ensures { ReadsItem cursor.old cursor.new result (units.behind_function (knot depth) exts.items
        (sized_specs words) (declr_of declr.declr.value) closed room) }
{
    if is_asm(kind_at(cursor.rest)) {
        room_above(above(declr.height), room, cursor)?;
        return declaration_with_label(lent, exts, words, declr, room, cursor, depth);
    }
    let attrs = attrs(room, cursor)?;
    function_or_not(lent, exts, words, declr, attrs, closed, room, cursor, depth)
}

/// What stands behind the first declarator.
fn behind_declr<'a, F>(
    lent: &F,
    exts: Vec<TokenId>,
    words: SizedSpecs,
    declr: PresentDeclr,
    closed: Option<Closed>,
    room: u16,
    cursor: &mut Cursor<'a>,
    depth: u32,
) -> Result<Item, ReadError>
where
    F: Fn(Ask, &mut Cursor<'a>) -> Result<Answer, ReadError>,
    requires { Lends F.Fn lent.now depth }
    ensures { ReadsItem cursor.old cursor.new result (units.behind_declr (knot depth) exts.items
        (sized_specs words) (declr_of declr.declr.value) closed room) }
{
    match closed {
        Some(closed) => behind_function(lent, exts, words, declr, closed, room, cursor, depth),
        None => declaration_with_label(lent, exts, words, declr, room, cursor, depth),
    }
}

/// A function or a declaration, behind words without `typedef`.
#[tactic(auto, unfolding(c_reading::specs::Items::first_declr, c_reading::specs::Reading::and_then))]
pub(crate) fn first_declr<'a, F>(
    lent: &F,
    exts: Vec<TokenId>,
    words: SizedSpecs,
    room: u16,
    cursor: &mut Cursor<'a>,
    depth: u32,
) -> Result<Item, ReadError>
where
    F: Fn(Ask, &mut Cursor<'a>) -> Result<Answer, ReadError>,
    requires { Lends F.Fn lent.now depth }
    ensures { ReadsItem cursor.old cursor.new result
        (units.first_declr (knot depth) exts.items (sized_specs words) room) }
{
    let below = room.saturating_sub(2);
    let found = declr_inside(
        lent,
        Mode::Named,
        Some(Kind::Value),
        true,
        below,
        cursor,
        depth,
    )?;
    let closed = found.closed;
    let declr = known_declr(found.declr, cursor)?;
    if lists_identifiers(&declr.declr) {
        return old_function(lent, exts, words, declr, room, cursor, depth);
    }
    cursor.scopes.release(Kind::Value)?;
    behind_declr(lent, exts, words, declr, closed, room, cursor, depth)
}
