//! Declarations (C99, 6.7).

ghost use Rattle.c_tree.specs.Unit.{spec_words_from};
ghost use Rattle.c_reading.specs.Knot.{knot};
ghost use Rattle.c_reading.specs.Stating.{declaration_behind, declaration_with, declaration_from};
ghost use Rattle.decl_forms.specs.Listed.{ReadsDeclaration, ReadsListing, declrs_at};
ghost use Rattle.decl_forms.specs.Listed.{declaration_on, sized_item};
ghost use Rattle.reader_base.specs.Lent.{Lends, sized_specs};

use crate::autos::auto_behind;
use crate::declarators::{init_declr, more_declrs, one_declr};
use crate::kinds::{declared_kind, has_auto};
use c_nodes::{SizedDeclaration, SizedInitDeclr, SizedInitDeclrs, SizedSpecs};
use c_reading::Role;
use qual_base::TokenId;
use reader_base::{
    Answer, Ask, Cursor, ReadError, is_semicolon, kind_at, room_above, semicolon, specs_here,
    specs_inside, take_one,
};
use typedef_scope::Kind;

/// `InitDeclr (, Attr* InitDeclr)*`.
#[tactic(auto, unfolding(c_reading::specs::Reading::listed, c_reading::specs::Reading::and_then, crate::specs::Listed::declrs_turn))]
fn declrs<'a, F>(
    lent: &F,
    kind: Kind,
    room: u16,
    cursor: &mut Cursor<'a>,
    depth: u32,
) -> Result<SizedInitDeclrs, ReadError>
where
    F: Fn(Ask, &mut Cursor<'a>) -> Result<Answer, ReadError>,
    requires { Lends F.Fn lent.now depth }
    ensures { ReadsListing cursor.old cursor.new result (declrs_at depth kind room) }
{
    let before = Vec::new(cursor.alloc);
    let first = init_declr(lent, before, kind, room, cursor, depth)?;
    let known = one_declr(cursor.alloc, first)?;
    more_declrs(lent, known, kind, room, cursor, depth)
}

/// `(, Attr* InitDeclr)* ;`, behind the words and the first declarator, which declare a value.
#[tactic(auto, unfolding(c_reading::specs::Reading::and_then), using(crate::proofs::Pushed::items_are))]
pub fn declaration_on<'a, F>(
    lent: &F,
    exts: Vec<TokenId>,
    words: SizedSpecs,
    first: SizedInitDeclr,
    room: u16,
    cursor: &mut Cursor<'a>,
    depth: u32,
) -> Result<SizedDeclaration, ReadError>
where
    F: Fn(Ask, &mut Cursor<'a>) -> Result<Answer, ReadError>,
    requires { Lends F.Fn lent.now depth }
    ensures { ReadsDeclaration cursor.old cursor.new result
        (declaration_on depth exts.items (sized_specs words) (sized_item first) room) }
{
    let known = one_declr(cursor.alloc, first)?;
    let declrs = more_declrs(
        lent,
        known,
        Kind::Value,
        room.saturating_sub(1),
        cursor,
        depth,
    )?;
    let semi = semicolon(cursor)?;
    Ok(decl_nodes::declaration(cursor.alloc, exts, words, declrs, semi)?)
}

/// `[InitDeclr (, Attr* InitDeclr)*] ;`, or `AutoDeclr ;`, behind the words.
#[tactic(auto, unfolding(c_reading::specs::Stating::declaration_behind, c_reading::specs::Stating::bare_declaration, c_reading::specs::Stating::declrs_with, c_reading::specs::Reading::fits, c_reading::specs::Reading::and_then), using(crate::proofs::Pushed::items_are))]
pub fn declaration_behind<'a, F>(
    lent: &F,
    exts: Vec<TokenId>,
    words: SizedSpecs,
    room: u16,
    cursor: &mut Cursor<'a>,
    depth: u32,
) -> Result<SizedDeclaration, ReadError>
where
    F: Fn(Ask, &mut Cursor<'a>) -> Result<Answer, ReadError>,
    requires { Lends F.Fn lent.now depth }
    ensures { ReadsDeclaration cursor.old cursor.new result
        (declaration_behind (knot depth) exts.items (sized_specs words) room) }
{
    if has_auto(words.words.as_slice()) {
        return auto_behind(lent, exts, words, room, cursor, depth);
    }
    if is_semicolon(kind_at(cursor.rest)) {
        room_above(words.height, room, cursor)?;
        let semi = take_one(cursor)?;
        let none = SizedInitDeclrs::new(cursor.alloc);
        return Ok(decl_nodes::declaration(cursor.alloc, exts, words, none, semi)?);
    }
    let kind = declared_kind(words.words.as_slice());
    let room = room.saturating_sub(1);
    let declrs = declrs(lent, kind, room, cursor, depth)?;
    let semi = semicolon(cursor)?;
    Ok(decl_nodes::declaration(cursor.alloc, exts, words, declrs, semi)?)
}

/// A declaration behind `__extension__`, as often as it stands.
#[tactic(auto, unfolding(c_reading::specs::Stating::declaration_with, c_reading::specs::Reading::and_then))]
pub fn declaration<'a, F>(
    lent: &F,
    exts: Vec<TokenId>,
    room: u16,
    cursor: &mut Cursor<'a>,
    depth: u32,
) -> Result<SizedDeclaration, ReadError>
where
    F: Fn(Ask, &mut Cursor<'a>) -> Result<Answer, ReadError>,
    requires { Lends F.Fn lent.now depth }
    ensures { ReadsDeclaration cursor.old cursor.new result
        (declaration_with (knot depth) exts.items room) }
{
    let words = specs_here(lent, Role::Declaring, room, cursor, depth)?;
    declaration_behind(lent, exts, words, room, cursor, depth)
}

/// A declaration behind words that were read already.
#[tactic(auto, unfolding(c_reading::specs::Stating::declaration_from, c_reading::specs::Reading::and_then))]
pub fn declaration_from<'a, F>(
    lent: &F,
    known: SizedSpecs,
    room: u16,
    cursor: &mut Cursor<'a>,
    depth: u32,
) -> Result<SizedDeclaration, ReadError>
where
    F: Fn(Ask, &mut Cursor<'a>) -> Result<Answer, ReadError>,
    requires { Lends F.Fn lent.now depth }
    ensures { ReadsDeclaration cursor.old cursor.new result
        (declaration_from (knot depth) (sized_specs known) room) }
{
    let words = specs_inside(
        lent,
        Role::Declaring,
        known,
        room.saturating_sub(1),
        cursor,
        depth,
    )?;
    declaration_behind(lent, Vec::new(cursor.alloc), words, room, cursor, depth)
}
