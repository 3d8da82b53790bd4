//! Declarations and statements in blocks (C99, 6.8.2).

ghost use Rattle.std.specs.Prelude.{◌≡◌, IfOk};
ghost use Rattle.c_reading.specs.Declaring.{words_of_attrs};
ghost use Rattle.c_reading.specs.Knot.{knot};
ghost use Rattle.c_reading.specs.Stating as stating;
ghost use Rattle.reader_base.specs.Lent.{Lends, sized_specs};
ghost use Rattle.stmt_forms.specs.InBlocks.{ReadsItem, typedef_word, assert_item_with};
ghost use Rattle.stmt_forms.specs.InBlocks.{declaration_item_with, item_from_with};
ghost use Rattle.stmt_forms.specs.InBlocks.{typed_item_with, unnamed_item_with};

use crate::jumps::expr_stmt;
use crate::labelled::label;
use c_nodes::{SizedBlockItem, SizedSpecs};
use c_reading::FaultKind;
use c_syntax::Attr;
use decl_forms::{declaration, declaration_from};
use decl_nodes::{block_stmt, typedef_name};
use qual_base::{NameId, NoMemory, TokenId};
use reader_base::{
    Answer, Ask, Begun, Cursor, ReadError, attrs, begins_specs, behind_first, extensions,
    is_attribute, is_colon, is_extension, is_semicolon, is_static_assert, kind_at, refused,
    room_for, spelled_name, static_assert, stmt_inside, take_one,
};
use std::alloc::Global;

/// Attributes as the first words of a declaration.
#[tactic(auto, using(crate::proofs::Rows::attr_words_same))]
fn attr_words(alloc: Global, attrs: &[Attr]) -> Result<SizedSpecs, NoMemory>
    ensures { IfOk result (λ made. sized_specs made ≡ words_of_attrs attrs.now) }
{
    decl_nodes::words_of_attrs(alloc, attrs)
}

/// The name of a type as the first word of a declaration.
fn typedef_words(alloc: Global, token: TokenId, name: NameId) -> Result<SizedSpecs, NoMemory>
    ensures { IfOk result (λ made. sized_specs made ≡ typedef_word token name) }
{
    let mut words = SizedSpecs::new(alloc);
    words.push(typedef_name(token, name))?;
    Ok(words)
}

/// `_Static_assert bal ;`, where it stands first.
#[tactic(auto, unfolding(c_reading::specs::Reading::fits, c_reading::specs::Reading::and_then))]
fn assert_item(room: u16, cursor: &mut Cursor) -> Result<SizedBlockItem, ReadError>
    ensures { ReadsItem cursor.old cursor.new result (assert_item_with room) }
{
    room_for(1, room, cursor)?;
    let found = static_assert(cursor)?;
    let made = decl_nodes::block_assert(cursor.alloc, found)?;
    Ok(made)
}

/// A declaration, behind `__extension__` as often as it stands.
#[tactic(auto, unfolding(c_reading::specs::Reading::and_then))]
fn declaration_item<'a, F>(
    lent: &F,
    exts: Vec<TokenId>,
    room: u16,
    cursor: &mut Cursor<'a>,
    depth: u32,
) -> Result<SizedBlockItem, ReadError>
where
    F: Fn(Ask, &mut Cursor<'a>) -> Result<Answer, ReadError>,
    requires { Lends F.Fn lent.now depth }
    ensures { ReadsItem cursor.old cursor.new result (declaration_item_with depth exts.items room) }
{
    let found = declaration(lent, exts, room, cursor, depth)?;
    let made = decl_nodes::block_declaration(cursor.alloc, found)?;
    Ok(made)
}

/// A declaration behind words that were read already.
#[tactic(auto, unfolding(c_reading::specs::Reading::and_then))]
fn item_from<'a, F>(
    lent: &F,
    known: SizedSpecs,
    room: u16,
    cursor: &mut Cursor<'a>,
    depth: u32,
) -> Result<SizedBlockItem, ReadError>
where
    F: Fn(Ask, &mut Cursor<'a>) -> Result<Answer, ReadError>,
    requires { Lends F.Fn lent.now depth }
    ensures { ReadsItem cursor.old cursor.new result
        (item_from_with depth (sized_specs known) room) }
{
    let found = declaration_from(lent, known, room, cursor, depth)?;
    let made = decl_nodes::block_declaration(cursor.alloc, found)?;
    Ok(made)
}

/// A declaration that begins with a name, which is a type.
#[tactic(auto, unfolding(c_reading::specs::Reading::and_then))]
fn typed_item<'a, F>(
    lent: &F,
    name: NameId,
    room: u16,
    cursor: &mut Cursor<'a>,
    depth: u32,
) -> Result<SizedBlockItem, ReadError>
where
    F: Fn(Ask, &mut Cursor<'a>) -> Result<Answer, ReadError>,
    requires { Lends F.Fn lent.now depth }
    ensures { ReadsItem cursor.old cursor.new result (typed_item_with depth name room) }
{
    let token = take_one(cursor)?;
    let words = typedef_words(cursor.alloc, token, name)?;
    item_from(lent, words, room, cursor, depth)
}

/// A label, a declaration or an expression, by the token behind the name and by its kind.
#[tactic(auto, unfolding(c_reading::specs::Stating::named_item, c_reading::specs::Reading::fits, c_reading::specs::Reading::and_then))]
fn named_item<'a, F>(
    lent: &F,
    name: NameId,
    room: u16,
    cursor: &mut Cursor<'a>,
    depth: u32,
) -> Result<SizedBlockItem, ReadError>
where
    F: Fn(Ask, &mut Cursor<'a>) -> Result<Answer, ReadError>,
    requires { Lends F.Fn lent.now depth }
    ensures { ReadsItem cursor.old cursor.new result (stating.named_item (knot depth) name room) }
{
    room_for(2, room, cursor)?;
    if is_colon(kind_at(behind_first(cursor.rest))) {
        let found = label(lent, room, cursor, depth)?;
        return Ok(block_stmt(found));
    }
    if cursor.scopes.names_type(name) {
        return typed_item(lent, name, room, cursor, depth);
    }
    let found = expr_stmt(lent, Begun::Nothing, room, cursor, depth)?;
    Ok(block_stmt(found))
}

/// A declaration or an expression behind `__extension__`, by the token there.
#[tactic(auto, unfolding(c_reading::specs::Stating::extended_item, c_reading::specs::Reading::and_then))]
fn extended_item<'a, F>(
    lent: &F,
    room: u16,
    cursor: &mut Cursor<'a>,
    depth: u32,
) -> Result<SizedBlockItem, ReadError>
where
    F: Fn(Ask, &mut Cursor<'a>) -> Result<Answer, ReadError>,
    requires { Lends F.Fn lent.now depth }
    ensures { ReadsItem cursor.old cursor.new result (stating.extended_item (knot depth) room) }
{
    let exts = extensions(room, cursor)?;
    if begins_specs(&cursor.scopes, kind_at(cursor.rest)) {
        return declaration_item(lent, exts, room, cursor, depth);
    }
    let found = expr_stmt(lent, Begun::Extensions(exts), room, cursor, depth)?;
    Ok(block_stmt(found))
}

/// A statement of attributes, or a declaration behind them, by the token there.
#[tactic(auto, unfolding(c_reading::specs::Stating::attr_item_by, c_reading::specs::Reading::and_then))]
fn attr_item_by<'a, F>(
    lent: &F,
    attrs: Vec<Attr>,
    room: u16,
    cursor: &mut Cursor<'a>,
    depth: u32,
) -> Result<SizedBlockItem, ReadError>
where
    F: Fn(Ask, &mut Cursor<'a>) -> Result<Answer, ReadError>,
    requires { Lends F.Fn lent.now depth }
    ensures { ReadsItem cursor.old cursor.new result
        (stating.attr_item_by (knot depth) attrs.items room) }
{
    if is_semicolon(kind_at(cursor.rest)) {
        let semi = take_one(cursor)?;
        let made = decl_nodes::attr_stmt(cursor.alloc, attrs, semi)?;
        return Ok(block_stmt(made));
    }
    if begins_specs(&cursor.scopes, kind_at(cursor.rest)) {
        let words = attr_words(cursor.alloc, attrs.as_slice())?;
        return item_from(lent, words, room, cursor, depth);
    }
    Err(refused(FaultKind::Unexpected, cursor.rest))
}

/// What begins with attributes in a block.
#[tactic(auto, unfolding(c_reading::specs::Stating::attr_item, c_reading::specs::Reading::and_then))]
fn attr_item<'a, F>(
    lent: &F,
    room: u16,
    cursor: &mut Cursor<'a>,
    depth: u32,
) -> Result<SizedBlockItem, ReadError>
where
    F: Fn(Ask, &mut Cursor<'a>) -> Result<Answer, ReadError>,
    requires { Lends F.Fn lent.now depth }
    ensures { ReadsItem cursor.old cursor.new result (stating.attr_item (knot depth) room) }
{
    let attrs = attrs(room, cursor)?;
    attr_item_by(lent, attrs, room, cursor, depth)
}

/// A declaration or a statement, by its first token, which is no name.
#[tactic(auto, unfolding(c_reading::specs::Reading::and_then))]
fn unnamed_item<'a, F>(
    lent: &F,
    room: u16,
    cursor: &mut Cursor<'a>,
    depth: u32,
) -> Result<SizedBlockItem, ReadError>
where
    F: Fn(Ask, &mut Cursor<'a>) -> Result<Answer, ReadError>,
    requires { Lends F.Fn lent.now depth }
    ensures { ReadsItem cursor.old cursor.new result (unnamed_item_with depth room) }
{
    if begins_specs(&cursor.scopes, kind_at(cursor.rest)) {
        return declaration_item(lent, Vec::new(cursor.alloc), room, cursor, depth);
    }
    let found = stmt_inside(lent, room, cursor, depth)?;
    Ok(block_stmt(found))
}

/// A declaration or a statement in a block (C99, 6.8.2), by its first token.
#[tactic(auto, unfolding(c_reading::specs::Stating::block_item_with, c_reading::specs::Stating::other_item))]
pub(crate) fn block_item<'a, F>(
    lent: &F,
    room: u16,
    cursor: &mut Cursor<'a>,
    depth: u32,
) -> Result<SizedBlockItem, ReadError>
where
    F: Fn(Ask, &mut Cursor<'a>) -> Result<Answer, ReadError>,
    requires { Lends F.Fn lent.now depth }
    ensures { ReadsItem cursor.old cursor.new result (stating.block_item_with (knot depth) room) }
{
    if is_static_assert(kind_at(cursor.rest)) {
        return assert_item(room, cursor);
    }
    if is_extension(kind_at(cursor.rest)) {
        return extended_item(lent, room, cursor, depth);
    }
    if is_attribute(kind_at(cursor.rest)) {
        return attr_item(lent, room, cursor, depth);
    }
    match spelled_name(kind_at(cursor.rest)) {
        Some(name) => named_item(lent, name, room, cursor, depth),
        None => unnamed_item(lent, room, cursor, depth),
    }
}
