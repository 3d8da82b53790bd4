//! Parameters of declarators (C99, 6.7.5.3).
//!
//! `depth` is the number of the readers of lists that the lent one gives; `room` is the greatest
//! height that the tree may have.

ghost use Rattle.std.specs.Prelude.{◌≡◌, IfOk};
ghost use Rattle.c_tree.specs.Lists.{some_declr_from};
ghost use Rattle.c_tree.specs.View.{declr_of};
ghost use Rattle.c_tree.specs.WellFormed.{ends_starred};
ghost use Rattle.c_reading.specs.Declaring as declaring;
ghost use Rattle.c_reading.specs.Knot.{knot};
ghost use Rattle.declr_forms.specs.Views.{ReadsParam, ReadsNext, ReadsParams, attrs_behind, list_of, more_params, params_turn};
ghost use Rattle.reader_base.specs.Gives.{ReadsRow};
ghost use Rattle.reader_base.specs.Lent.{Lends, ReadsSpecs, sized_specs};
ghost use Rattle.reader_base.specs.Looping.{IsLoop, Turns};

use c_nodes::{SizedDeclr, SizedParam, SizedParams, SizedSpecs, param};
use c_reading::{Mode, Role, turns_take_tokens};
use c_syntax::{Attr, Declr, Ellipsis, Qual};
use decl_nodes::{words_of_attrs, words_of_quals};
use qual_base::{NoMemory, TokenId};
use reader_base::{
    Answer, Ask, Cursor, ReadError, attrs, declr_inside, is_close_paren, is_comma, is_dots,
    kind_at, quals, specs_here, specs_inside, take_one,
};
use std::alloc::Global;
use typedef_scope::Kind;

/// Parameters, and the dots that end them.
#[derive(Drop)]
pub(crate) struct ParamList {
    pub(crate) items: SizedParams,
    pub(crate) dots: Option<Ellipsis>,
}

/// What stands behind a comma between parameters.
#[derive(Drop)]
pub(crate) enum NextParam {
    Param(SizedParam),
    Dots(Ellipsis),
}

/// Qualifiers as the first words of a parameter.
#[tactic(auto, using(crate::proofs::Words::qual_words))]
fn qual_words(alloc: Global, known: Vec<Qual>) -> Result<SizedSpecs, NoMemory>
    ensures { IfOk result (λ made. sized_specs made ≡ declaring.words_of_quals known.items) }
{
    words_of_quals(alloc, known.as_slice())
}

/// Attributes as the first words of a parameter.
#[tactic(auto, using(crate::proofs::Words::attr_words))]
fn attr_words(alloc: Global, known: Vec<Attr>) -> Result<SizedSpecs, NoMemory>
    ensures { IfOk result (λ made. sized_specs made ≡ declaring.words_of_attrs known.items) }
{
    words_of_attrs(alloc, known.as_slice())
}

/// Whether a declarator ends with a star and its words, behind which attributes are such words.
fn ends_starred(declr: &Declr) -> bool
    ensures { result ≡ ends_starred (declr_of declr.now) }
{
    let mut part = declr;
    loop {
        match part {
            Declr::Pointer { inner, .. } => part = inner,
            Declr::AbsPointer { inner, .. } => match inner {
                Some(inner) => part = inner,
                None => return true,
            },
            Declr::DeclName { .. }
            | Declr::DeclParen { .. }
            | Declr::Array { .. }
            | Declr::Params { .. }
            | Declr::AbsParen { .. }
            | Declr::AbsArray { .. }
            | Declr::AbsParams { .. }
            | Declr::Identifiers { .. }
            | Declr::BaseName { .. } => return false,
        }
    }
}

/// Whether a parameter takes the attributes behind its declarator.
fn takes_attrs(declr: &SizedDeclr) -> bool
    ensures { result ≡ declaring.takes_attrs (some_declr_from declr.now.declr) }
{
    match &declr.declr {
        Some(declr) => !ends_starred(declr),
        None => false,
    }
}

/// The specifiers of a parameter, behind words that were read already.
fn param_words<'a, F>(
    lent: &F,
    known: SizedSpecs,
    room: u16,
    cursor: &mut Cursor<'a>,
    depth: u32,
) -> Result<SizedSpecs, ReadError>
where
    F: Fn(Ask, &mut Cursor<'a>) -> Result<Answer, ReadError>,
    requires { Lends F.Fn lent.now depth }
    ensures { ReadsSpecs cursor.old cursor.new result
        (declaring.param_words (knot depth) (sized_specs known) room) }
{
    match known.words.as_slice() {
        [] => specs_here(lent, Role::Typed, room, cursor, depth),
        [_, ..] => {
            let inner = room.saturating_sub(1);
            specs_inside(lent, Role::Typed, known, inner, cursor, depth)
        }
    }
}

/// The attributes behind a parameter's declarator, where it takes none itself.
fn param_attrs(
    declr: &SizedDeclr,
    room: u16,
    cursor: &mut Cursor,
    depth: u32,
) -> Result<Vec<Attr>, ReadError>
    ensures { ReadsRow cursor.old cursor.new result
        (attrs_behind depth (some_declr_from declr.now.declr) room) }
{
    if takes_attrs(declr) {
        attrs(room, cursor)
    } else {
        Ok(Vec::new(cursor.alloc))
    }
}

/// `Param = Specs [declr | absdeclr] Attr*`, behind words that were read already.
#[tactic(auto, unfolding(c_reading::specs::Declaring::param_with, c_reading::specs::Reading::and_then))]
fn parameter<'a, F>(
    lent: &F,
    known: SizedSpecs,
    room: u16,
    cursor: &mut Cursor<'a>,
    depth: u32,
) -> Result<SizedParam, ReadError>
where
    F: Fn(Ask, &mut Cursor<'a>) -> Result<Answer, ReadError>,
    requires { Lends F.Fn lent.now depth }
    ensures { ReadsParam cursor.old cursor.new result
        (declaring.param_with (knot depth) (sized_specs known) room) }
{
    let words = param_words(lent, known, room, cursor, depth)?;
    let wanted = Some(Kind::Value);
    let inner = room.saturating_sub(1);
    let found = declr_inside(lent, Mode::Either, wanted, false, inner, cursor, depth)?;
    cursor.scopes.release(Kind::Value)?;
    let attrs = param_attrs(&found.declr, room, cursor, depth)?;
    Ok(param(words, found.declr, attrs))
}

/// `qual* ...` or a parameter that begins with the qualifiers, behind a comma.
#[tactic(auto, unfolding(c_reading::specs::Declaring::next_param, c_reading::specs::Reading::and_then))]
fn next_param<'a, F>(
    lent: &F,
    room: u16,
    comma: TokenId,
    cursor: &mut Cursor<'a>,
    depth: u32,
) -> Result<NextParam, ReadError>
where
    F: Fn(Ask, &mut Cursor<'a>) -> Result<Answer, ReadError>,
    requires { Lends F.Fn lent.now depth }
    ensures { ReadsNext cursor.old cursor.new result
        (declaring.next_param (knot depth) room comma) }
{
    let quals = quals(cursor)?;
    if is_dots(kind_at(cursor.rest)) {
        let dots = take_one(cursor)?;
        return Ok(NextParam::Dots(Ellipsis { comma, quals, dots }));
    }
    let known = qual_words(cursor.alloc, quals)?;
    let found = parameter(lent, known, room, cursor, depth)?;
    Ok(NextParam::Param(found))
}

/// A comma and what stands behind it, where a comma stands and no dots came.
#[tactic(auto, unfolding(c_reading::specs::Reading::and_then), using(crate::proofs::Words::item_pushed))]
fn param_turn<'a, F>(
    lent: &F,
    known: &mut ParamList,
    room: u16,
    cursor: &mut Cursor<'a>,
    depth: u32,
) -> Result<bool, ReadError>
where
    F: Fn(Ask, &mut Cursor<'a>) -> Result<Answer, ReadError>,
    requires { Lends F.Fn lent.now depth }
    ensures { Turns (list_of known.old) (list_of known.new) cursor.old cursor.new result
        (params_turn depth room) }
{
    if let Some(_) = &known.dots {
        return Ok(false);
    }
    let [first, rest @ ..] = cursor.rest else {
        return Ok(false);
    };
    if !is_comma(first.kind) {
        return Ok(false);
    }
    cursor.rest = rest;
    match next_param(lent, room, first.at, cursor, depth)? {
        NextParam::Param(found) => known.items.push(found)?,
        NextParam::Dots(dots) => known.dots = Some(dots),
    }
    Ok(true)
}

/// Each turn over parameters takes a comma.
fn params_step(room: u16, depth: u32)
    ensures { IsLoop (params_turn depth room) }
{
    turns_take_tokens(depth);
}

/// The parameters behind those that were read already, up to the dots that end them.
fn more_params<'a, F>(
    lent: &F,
    known: ParamList,
    room: u16,
    cursor: &mut Cursor<'a>,
    depth: u32,
) -> Result<ParamList, ReadError>
where
    F: Fn(Ask, &mut Cursor<'a>) -> Result<Answer, ReadError>,
    requires { Lends F.Fn lent.now depth }
    ensures { ReadsParams cursor.old cursor.new result (more_params depth room (list_of known)) }
{
    params_step(room, depth);
    let mut all = known;
    while param_turn(lent, &mut all, room, cursor, depth)? {}
    Ok(all)
}

/// `[Param (, Param)* [, qual* ...]]`, behind attributes of the first.
#[tactic(auto, unfolding(c_reading::specs::Declaring::params_with, c_reading::specs::Reading::listed, c_reading::specs::Reading::and_then), using(crate::proofs::Words::item_pushed))]
pub(crate) fn parameters<'a, F>(
    lent: &F,
    lead: Vec<Attr>,
    room: u16,
    cursor: &mut Cursor<'a>,
    depth: u32,
) -> Result<ParamList, ReadError>
where
    F: Fn(Ask, &mut Cursor<'a>) -> Result<Answer, ReadError>,
    requires { Lends F.Fn lent.now depth }
    ensures { ReadsParams cursor.old cursor.new result
        (declaring.params_with (knot depth) lead.items room) }
{
    let mut known = ParamList {
        items: SizedParams::new(cursor.alloc),
        dots: None,
    };
    if lead.is_empty() && is_close_paren(kind_at(cursor.rest)) {
        return Ok(known);
    }
    let words = attr_words(cursor.alloc, lead)?;
    let first = parameter(lent, words, room, cursor, depth)?;
    known.items.push(first)?;
    more_params(lent, known, room, cursor, depth)
}
