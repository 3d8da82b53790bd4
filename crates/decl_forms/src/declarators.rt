//! Declarators of a declaration, with what stands behind each (C99, 6.7).

ghost use Rattle.std.specs.Prelude.{◌≡◌, IfOk, Some};
ghost use Rattle.c_tree.specs.View.{declr_of};
ghost use Rattle.c_reading.specs.Knot.{knot};
ghost use Rattle.c_reading.specs.Reading.{run};
ghost use Rattle.c_reading.specs.Stating.{some_init_with, declr_behind, init_declr_with};
ghost use Rattle.decl_forms.specs.Listed.{ReadsSomeInit, ReadsItem, ReadsListing};
ghost use Rattle.decl_forms.specs.Listed.{listing, only, declrs_turn};
ghost use Rattle.reader_base.specs.Lent.{Lends};
ghost use Rattle.reader_base.specs.Looping.{IsLoop, Turns};

use crate::init_forms::init;
use c_nodes::{PresentDeclr, SizedInitDeclr, SizedInitDeclrs, SizedSomeInit};
use c_reading::turns_take_tokens;
use c_syntax::Attr;
use decl_nodes::{no_init, some_init};
use qual_base::NoMemory;
use reader_base::{
    Answer, Ask, Cursor, ReadError, attrs, is_comma, is_equal, kind_at, label, named_declr,
    take_one,
};
use std::alloc::Global;
use typedef_scope::Kind;

/// `[= init]`. Linear in the tokens.
#[tactic(auto, unfolding(c_reading::specs::Stating::some_init_with, c_reading::specs::Reading::and_then))]
pub fn some_init_here<'a, F>(
    lent: &F,
    room: u16,
    cursor: &mut Cursor<'a>,
    depth: u32,
) -> Result<SizedSomeInit, ReadError>
where
    F: Fn(Ask, &mut Cursor<'a>) -> Result<Answer, ReadError>,
    requires { Lends F.Fn lent.now depth }
    ensures { ReadsSomeInit cursor.old cursor.new result (some_init_with (knot depth) room) }
{
    if !is_equal(kind_at(cursor.rest)) {
        return Ok(no_init());
    }
    let equal = take_one(cursor)?;
    let init = init(lent, room.saturating_sub(1), cursor, depth)?;
    Ok(some_init(equal, init))
}

/// `[AsmLabel] Attr* [= init]`, behind a declarator whose name is declared. Linear in the tokens.
#[tactic(auto, unfolding(c_reading::specs::Stating::declr_behind, c_reading::specs::Reading::and_then))]
pub fn declr_behind<'a, F>(
    lent: &F,
    before: Vec<Attr>,
    declr: PresentDeclr,
    room: u16,
    cursor: &mut Cursor<'a>,
    depth: u32,
) -> Result<SizedInitDeclr, ReadError>
where
    F: Fn(Ask, &mut Cursor<'a>) -> Result<Answer, ReadError>,
    requires { Lends F.Fn lent.now depth }
    ensures { ReadsItem cursor.old cursor.new result
        (declr_behind (knot depth) before.items (declr_of declr.declr.value) room) }
{
    let label = label(cursor)?;
    let attrs = attrs(room, cursor)?;
    let init = some_init_here(lent, room, cursor, depth)?;
    Ok(decl_nodes::init_declr(before, declr, label, attrs, init))
}

/// `InitDeclr = declr [AsmLabel] Attr* [= init]`, behind attributes. The name is declared behind its declarator.
#[tactic(auto, unfolding(c_reading::specs::Stating::init_declr_with, c_reading::specs::Reading::and_then))]
pub(crate) fn init_declr<'a, F>(
    lent: &F,
    before: Vec<Attr>,
    kind: Kind,
    room: u16,
    cursor: &mut Cursor<'a>,
    depth: u32,
) -> Result<SizedInitDeclr, ReadError>
where
    F: Fn(Ask, &mut Cursor<'a>) -> Result<Answer, ReadError>,
    requires { Lends F.Fn lent.now depth }
    ensures { ReadsItem cursor.old cursor.new result
        (init_declr_with (knot depth) before.items kind room) }
{
    let declr = named_declr(lent, Some(kind), room.saturating_sub(1), cursor, depth)?;
    cursor.scopes.release(kind)?;
    declr_behind(lent, before, declr, room, cursor, depth)
}

/// Each turn over declarators takes a comma.
#[tactic(auto, unfolding(crate::specs::Listed::declrs_turn))]
fn declrs_step(kind: Kind, room: u16, depth: u32)
    ensures { IsLoop (declrs_turn depth kind room) }
{
    turns_take_tokens(depth);
}

/// Behind a comma one declarator more.
#[tactic(auto, unfolding(crate::specs::Listed::declrs_turn, c_reading::specs::Stating::next_init_declr, c_reading::specs::Reading::and_then), using(crate::proofs::Pushed::items_pushed))]
fn declr_turn<'a, F>(
    lent: &F,
    known: &mut SizedInitDeclrs,
    kind: Kind,
    room: u16,
    cursor: &mut Cursor<'a>,
    depth: u32,
) -> Result<bool, ReadError>
where
    F: Fn(Ask, &mut Cursor<'a>) -> Result<Answer, ReadError>,
    requires { Lends F.Fn lent.now depth }
    ensures { Turns (listing known.old) (listing known.new) cursor.old cursor.new result
        (declrs_turn depth kind room) }
{
    let [first, rest @ ..] = cursor.rest else {
        return Ok(false);
    };
    if !is_comma(first.kind) {
        return Ok(false);
    }
    cursor.rest = rest;
    let before = attrs(room, cursor)?;
    let next = init_declr(lent, before, kind, room, cursor, depth)?;
    known.push(next)?;
    Ok(true)
}

/// One declarator so far.
pub(crate) fn one_declr(alloc: Global, first: SizedInitDeclr) -> Result<SizedInitDeclrs, NoMemory>
    ensures { IfOk result (λ known. listing known ≡ only first) }
{
    let mut known = SizedInitDeclrs::new(alloc);
    known.push(first)?;
    Ok(known)
}

/// Behind each comma one declarator more.
pub(crate) fn more_declrs<'a, F>(
    lent: &F,
    first: SizedInitDeclrs,
    kind: Kind,
    room: u16,
    cursor: &mut Cursor<'a>,
    depth: u32,
) -> Result<SizedInitDeclrs, ReadError>
where
    F: Fn(Ask, &mut Cursor<'a>) -> Result<Answer, ReadError>,
    requires { Lends F.Fn lent.now depth }
    ensures { ReadsListing cursor.old cursor.new result
        (run (declrs_turn depth kind room) (listing first)) }
{
    declrs_step(kind, room, depth);
    let mut known = first;
    while declr_turn(lent, &mut known, kind, room, cursor, depth)? {}
    Ok(known)
}
