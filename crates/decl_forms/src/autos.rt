//! Declarations whose name has the type of its initialiser, a GNU form.

ghost use Rattle.std.specs.Prelude.{true};
ghost use Rattle.c_reading.specs.Knot.{knot};
ghost use Rattle.c_reading.specs.Stating as stating;
ghost use Rattle.c_reading.specs.Reading as reading;
ghost use Rattle.c_reading.specs.Tokens as tokens;
ghost use Rattle.c_tree.specs.View.{declr_of};
ghost use Rattle.reader_base.specs.Lent.{Lends, ReadsPresent, sized_specs};
ghost use Rattle.decl_forms.specs.Listed.{ReadsDeclaration};

use crate::declarators::one_declr;
use crate::kinds::has_typedef;
use c_nodes::{PresentDeclr, SizedDeclaration, SizedSpecs, base_name};
use c_reading::{FaultKind, Reach};
use decl_nodes::{init_declr, init_value, some_init};
use qual_base::TokenId;
use reader_base::{
    Answer, Ask, Begun, Cursor, ReadError, attrs, equal, expr_inside, is_base_word, kind_at,
    known_declr, refused, room_for, semicolon, spelled_name, take_one,
};
use typedef_scope::Kind;

/// `Attr* = assign ;`, behind the name, which is declared behind the expression.
#[tactic(auto, unfolding(c_reading::specs::Stating::auto_declr, c_reading::specs::Reading::and_then), using(crate::proofs::Pushed::items_are))]
fn auto_declr<'a, F>(
    lent: &F,
    exts: Vec<TokenId>,
    words: SizedSpecs,
    declr: PresentDeclr,
    room: u16,
    cursor: &mut Cursor<'a>,
    depth: u32,
) -> Result<SizedDeclaration, ReadError>
where
    F: Fn(Ask, &mut Cursor<'a>) -> Result<Answer, ReadError>,
    requires { Lends F.Fn lent.now depth }
    ensures { ReadsDeclaration cursor.old cursor.new result
        (stating.auto_declr (knot depth) exts.items
        (sized_specs words) (declr_of declr.declr.value) room) }
{
    let attrs = attrs(room, cursor)?;
    let equal = equal(cursor)?;
    let inside = room.saturating_sub(1);
    let value = expr_inside(lent, Reach::Assigned, Begun::Nothing, inside, cursor, depth)?;
    cursor.scopes.release(Kind::Value)?;
    let semi = semicolon(cursor)?;
    let init = some_init(equal, init_value(value));
    let only = init_declr(Vec::new(cursor.alloc), declr, None, attrs, init);
    let declrs = one_declr(cursor.alloc, only)?;
    Ok(decl_nodes::declaration(cursor.alloc, exts, words, declrs, semi)?)
}

/// The name, which is held until the expression ends.
#[tactic(auto, unfolding(c_reading::specs::Reading::fits, c_reading::specs::Reading::and_then))]
fn auto_name(room: u16, cursor: &mut Cursor, depth: u32) -> Result<PresentDeclr, ReadError>
    ensures { ReadsPresent cursor.old cursor.new result (stating.auto_name (knot depth)
        (tokens.spelled_name (reading.kind_at cursor.old.rest.now)) room) }
{
    let Some(name) = spelled_name(kind_at(cursor.rest)) else {
        return Err(refused(FaultKind::Unexpected, cursor.rest));
    };
    if !cursor.scopes.hold(name, Kind::Value)? {
        return Err(refused(FaultKind::Redeclared, cursor.rest));
    }
    room_for(1, room, cursor)?;
    let [first, rest @ ..] = cursor.rest else {
        return Err(refused(FaultKind::Unexpected, cursor.rest));
    };
    let found = c_nodes::declr_name(cursor.alloc, first.at, name)?;
    cursor.rest = rest;
    known_declr(found, cursor)
}

/// A base word in the place of the name, behind `typedef`, which declares nothing.
#[tactic(auto, unfolding(c_reading::specs::Reading::fits, c_reading::specs::Reading::and_then))]
fn auto_base(room: u16, cursor: &mut Cursor, depth: u32) -> Result<PresentDeclr, ReadError>
    ensures { ReadsPresent cursor.old cursor.new result
        (stating.auto_declarator (knot depth) true room) }
{
    if !is_base_word(kind_at(cursor.rest)) {
        return Err(refused(FaultKind::Unexpected, cursor.rest));
    }
    room_for(1, room, cursor)?;
    let token = take_one(cursor)?;
    let found = base_name(cursor.alloc, token)?;
    known_declr(found, cursor)
}

/// What stands in the place of the name: a base word behind `typedef`, else a name.
fn auto_declarator(
    types: bool,
    room: u16,
    cursor: &mut Cursor,
    depth: u32,
) -> Result<PresentDeclr, ReadError>
    ensures { ReadsPresent cursor.old cursor.new result
        (stating.auto_declarator (knot depth) types room) }
{
    if types {
        auto_base(room, cursor, depth)
    } else {
        auto_name(room, cursor, depth)
    }
}

/// `AutoDeclr ;`, behind words with `__auto_type`.
#[tactic(auto, unfolding(c_reading::specs::Stating::auto_behind, c_reading::specs::Reading::and_then))]
pub(crate) fn auto_behind<'a, F>(
    lent: &F,
    exts: Vec<TokenId>,
    words: SizedSpecs,
    room: u16,
    cursor: &mut Cursor<'a>,
    depth: u32,
) -> Result<SizedDeclaration, ReadError>
where
    F: Fn(Ask, &mut Cursor<'a>) -> Result<Answer, ReadError>,
    requires { Lends F.Fn lent.now depth }
    ensures { ReadsDeclaration cursor.old cursor.new result
        (stating.auto_behind (knot depth) exts.items (sized_specs words) room) }
{
    let types = has_typedef(words.words.as_slice());
    let declr = auto_declarator(types, room.saturating_sub(2), cursor, depth)?;
    auto_declr(
        lent,
        exts,
        words,
        declr,
        room.saturating_sub(1),
        cursor,
        depth,
    )
}
