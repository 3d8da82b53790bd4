//! Declarations as items of a unit (C99, 6.7 and 6.9.2).

ghost use Rattle.c_tree.specs.View.{declr_of};
ghost use Rattle.c_reading.specs.Items.{attrs_behind};
ghost use Rattle.c_reading.specs.Knot.{knot};
ghost use Rattle.decl_forms.specs.Listed as listed;
ghost use Rattle.reader_base.specs.Lent.{Lends, sized_specs};
ghost use Rattle.c_parser.specs.UnitForms.Listed.{ReadsItem, with_attrs, with_label};
ghost use Rattle.c_parser.specs.UnitForms.Listed.{declaration_item_with};

use c_nodes::{PresentDeclr, SizedInitDeclr, SizedSpecs};
use c_syntax::{Attr, Item};
use decl_forms::{declaration_behind, declaration_on, declr_behind, some_init_here};
use decl_nodes::{declaration_item, init_declr};
use qual_base::TokenId;
use reader_base::{Answer, Ask, Cursor, ReadError};

/// `[= init]`, behind a declarator and attributes.
#[tactic(auto, unfolding(c_reading::specs::Items::attrs_behind, c_reading::specs::Reading::and_then))]
fn behind_attrs<'a, F>(
    lent: &F,
    declr: PresentDeclr,
    attrs: Vec<Attr>,
    room: u16,
    cursor: &mut Cursor<'a>,
    depth: u32,
) -> Result<SizedInitDeclr, ReadError>
where
    F: Fn(Ask, &mut Cursor<'a>) -> Result<Answer, ReadError>,
    requires { Lends F.Fn lent.now depth }
    ensures { listed.ReadsItem cursor.old cursor.new result
        (attrs_behind (knot depth) (declr_of declr.declr.value) attrs.items room) }
{
    let init = some_init_here(lent, room, cursor, depth)?;
    let before = Vec::new(cursor.alloc);
    Ok(init_declr(before, declr, None, attrs, init))
}

/// A declaration, behind its words, its first declarator and attributes.
#[tactic(auto, unfolding(c_reading::specs::Stating::declrs_with, c_reading::specs::Reading::listed, c_reading::specs::Reading::and_then, decl_forms::specs::Listed::declrs_turn))]
pub(crate) fn declaration_with_attrs<'a, F>(
    lent: &F,
    exts: Vec<TokenId>,
    words: SizedSpecs,
    declr: PresentDeclr,
    attrs: Vec<Attr>,
    room: u16,
    cursor: &mut Cursor<'a>,
    depth: u32,
) -> Result<Item, ReadError>
where
    F: Fn(Ask, &mut Cursor<'a>) -> Result<Answer, ReadError>,
    requires { Lends F.Fn lent.now depth }
    ensures { ReadsItem cursor.old cursor.new result (with_attrs depth exts.items
        (sized_specs words) (declr_of declr.declr.value) attrs.items room) }
{
    let first = behind_attrs(lent, declr, attrs, room.saturating_sub(1), cursor, depth)?;
    let found = declaration_on(lent, exts, words, first, room, cursor, depth)?;
    Ok(declaration_item(cursor.alloc, found)?)
}

/// A declaration, behind its words and its first declarator.
#[tactic(auto, unfolding(c_reading::specs::Stating::declrs_with, c_reading::specs::Reading::listed, c_reading::specs::Reading::and_then, decl_forms::specs::Listed::declrs_turn))]
pub(crate) fn declaration_with_label<'a, F>(
    lent: &F,
    exts: Vec<TokenId>,
    words: SizedSpecs,
    declr: PresentDeclr,
    room: u16,
    cursor: &mut Cursor<'a>,
    depth: u32,
) -> Result<Item, ReadError>
where
    F: Fn(Ask, &mut Cursor<'a>) -> Result<Answer, ReadError>,
    requires { Lends F.Fn lent.now depth }
    ensures { ReadsItem cursor.old cursor.new result (with_label depth exts.items
        (sized_specs words) (declr_of declr.declr.value) room) }
{
    let before = Vec::new(cursor.alloc);
    let first = declr_behind(lent, before, declr, room.saturating_sub(1), cursor, depth)?;
    let found = declaration_on(lent, exts, words, first, room, cursor, depth)?;
    Ok(declaration_item(cursor.alloc, found)?)
}

/// A declaration, behind its words.
#[tactic(auto, unfolding(c_reading::specs::Reading::and_then))]
pub(crate) fn declaration_here<'a, F>(
    lent: &F,
    exts: Vec<TokenId>,
    words: SizedSpecs,
    room: u16,
    cursor: &mut Cursor<'a>,
    depth: u32,
) -> Result<Item, ReadError>
where
    F: Fn(Ask, &mut Cursor<'a>) -> Result<Answer, ReadError>,
    requires { Lends F.Fn lent.now depth }
    ensures { ReadsItem cursor.old cursor.new result
        (declaration_item_with depth exts.items (sized_specs words) room) }
{
    let found = declaration_behind(lent, exts, words, room, cursor, depth)?;
    Ok(declaration_item(cursor.alloc, found)?)
}
