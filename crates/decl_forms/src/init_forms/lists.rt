//! Lists of initialisers in braces (C99, 6.7.8).

ghost use Rattle.std.specs.Prelude.{◌≡◌, IfOk};
ghost use Rattle.c_reading.specs.Initialising.{init_item_with, next_init_item, init_items_with};
ghost use Rattle.c_reading.specs.Initialising.{braced_with, init_list_with};
ghost use Rattle.c_reading.specs.Knot.{knot};
ghost use Rattle.c_reading.specs.Reading.{comma_turn, run};
ghost use Rattle.decl_forms.specs.InitForms.Seen.{ReadsItem};
ghost use Rattle.decl_forms.specs.InitForms.Listed.{ReadsListing, listing, only};
ghost use Rattle.c_reading.specs.Initialising as inits;
ghost use Rattle.reader_base.specs.Lent.{Lends, ReadsInitList};
ghost use Rattle.reader_base.specs.Looping.{IsLoop, Turns};

use crate::init_forms::designators::{desigs, equal_behind, old_desigs};
use crate::init_forms::values::init_here;
use c_nodes::{SizedInitItem, SizedInitItems, SizedInitList};
use c_reading::{FaultKind, turns_take_tokens};
use qual_base::{NameId, NoMemory, TokenId};
use reader_base::{
    Answer, Ask, Cursor, ReadError, behind_first, close_brace, colon, is_close_brace, is_colon,
    is_comma, is_open_brace, kind_at, name, refused, room_for, spelled_name, take_one,
};
use std::alloc::Global;

/// Items, and the comma that ended them, if one did.
#[derive(Drop)]
pub struct Listing {
    pub items: SizedInitItems,
    pub comma: Option<TokenId>,
}

/// `InitItem = [Desig+ =] init`.
#[tactic(auto, unfolding(c_reading::specs::Initialising::plain_item, c_reading::specs::Reading::and_then), using(crate::proofs::InitForms::Pushed::desigs_are))]
fn plain_item<'a, F>(
    lent: &F,
    room: u16,
    cursor: &mut Cursor<'a>,
    depth: u32,
) -> Result<SizedInitItem, ReadError>
where
    F: Fn(Ask, &mut Cursor<'a>) -> Result<Answer, ReadError>,
    requires { Lends F.Fn lent.now depth }
    ensures { ReadsItem cursor.old cursor.new result (inits.plain_item (knot depth) room) }
{
    let desigs = desigs(lent, room, cursor, depth)?;
    let equal = equal_behind(&desigs, cursor)?;
    let init = init_here(lent, room, cursor, depth)?;
    Ok(decl_nodes::init_item(desigs, equal, init))
}

/// `InitItem = OldDesig init`, at the name.
#[tactic(auto, unfolding(c_reading::specs::Initialising::old_item, c_reading::specs::Reading::and_then))]
fn old_item<'a, F>(
    lent: &F,
    room: u16,
    cursor: &mut Cursor<'a>,
    depth: u32,
) -> Result<SizedInitItem, ReadError>
where
    F: Fn(Ask, &mut Cursor<'a>) -> Result<Answer, ReadError>,
    requires { Lends F.Fn lent.now depth }
    ensures { ReadsItem cursor.old cursor.new result (inits.old_item (knot depth) room) }
{
    let name = name(cursor)?;
    let colon = colon(cursor)?;
    let desigs = old_desigs(cursor.alloc, name, colon)?;
    let init = init_here(lent, room, cursor, depth)?;
    Ok(decl_nodes::init_item(desigs, None, init))
}

/// An item that begins with a name, in wider C, by the token behind the name: a typedef name that is no designator is refused
/// there.
#[tactic(auto, unfolding(c_reading::specs::Initialising::named_init_item, c_reading::specs::Reading::fits))]
fn named_item<'a, F>(
    lent: &F,
    name: NameId,
    room: u16,
    cursor: &mut Cursor<'a>,
    depth: u32,
) -> Result<SizedInitItem, ReadError>
where
    F: Fn(Ask, &mut Cursor<'a>) -> Result<Answer, ReadError>,
    requires { Lends F.Fn lent.now depth }
    ensures { ReadsItem cursor.old cursor.new result
        (inits.named_init_item (knot depth) name room) }
{
    room_for(2, room, cursor)?;
    if is_colon(kind_at(behind_first(cursor.rest))) {
        return old_item(lent, room, cursor, depth);
    }
    if cursor.scopes.names_type(name) {
        return Err(refused(FaultKind::Unexpected, behind_first(cursor.rest)));
    }
    plain_item(lent, room, cursor, depth)
}

/// `InitItem = [Desig+ =] init | OldDesig init`.
#[tactic(auto, unfolding(c_reading::specs::Initialising::init_item_with))]
fn item<'a, F>(
    lent: &F,
    room: u16,
    cursor: &mut Cursor<'a>,
    depth: u32,
) -> Result<SizedInitItem, ReadError>
where
    F: Fn(Ask, &mut Cursor<'a>) -> Result<Answer, ReadError>,
    requires { Lends F.Fn lent.now depth }
    ensures { ReadsItem cursor.old cursor.new result (init_item_with (knot depth) room) }
{
    match spelled_name(kind_at(cursor.rest)) {
        Some(name) if cursor.scopes.is_wide() => named_item(lent, name, room, cursor, depth),
        _ => plain_item(lent, room, cursor, depth),
    }
}

/// Each turn over items takes a token.
fn items_step(room: u16, depth: u32)
    ensures { IsLoop (comma_turn (next_init_item (knot depth) room)) }
{
    turns_take_tokens(depth);
}

/// Behind a comma one item more, or the end of the list.
#[tactic(auto, unfolding(c_reading::specs::Initialising::next_init_item, c_reading::specs::Reading::and_then), using(crate::proofs::InitForms::Pushed::items_pushed))]
fn item_turn<'a, F>(
    lent: &F,
    known: &mut Listing,
    room: u16,
    cursor: &mut Cursor<'a>,
    depth: u32,
) -> Result<bool, ReadError>
where
    F: Fn(Ask, &mut Cursor<'a>) -> Result<Answer, ReadError>,
    requires { Lends F.Fn lent.now depth }
    ensures { Turns (listing known.old) (listing known.new) cursor.old cursor.new result
        (comma_turn (next_init_item (knot depth) room)) }
{
    if known.comma.is_some() {
        return Ok(false);
    }
    let [first, rest @ ..] = cursor.rest else {
        return Ok(false);
    };
    if !is_comma(first.kind) {
        return Ok(false);
    }
    let comma = first.at;
    cursor.rest = rest;
    if is_close_brace(kind_at(cursor.rest)) {
        known.comma = Some(comma);
        return Ok(true);
    }
    let next = item(lent, room, cursor, depth)?;
    known.items.push(next)?;
    Ok(true)
}

/// One item so far.
fn one_item(alloc: Global, first: SizedInitItem) -> Result<Listing, NoMemory>
    ensures { IfOk result (λ known. listing known ≡ only first) }
{
    let mut items = SizedInitItems::new(alloc);
    items.push(first)?;
    Ok(Listing { items, comma: None })
}

/// Behind each comma one item more.
fn more_items<'a, F>(
    lent: &F,
    first: Listing,
    room: u16,
    cursor: &mut Cursor<'a>,
    depth: u32,
) -> Result<Listing, ReadError>
where
    F: Fn(Ask, &mut Cursor<'a>) -> Result<Answer, ReadError>,
    requires { Lends F.Fn lent.now depth }
    ensures { ReadsListing cursor.old cursor.new result
        (run (comma_turn (next_init_item (knot depth) room)) (listing first)) }
{
    items_step(room, depth);
    let mut known = first;
    while item_turn(lent, &mut known, room, cursor, depth)? {}
    Ok(known)
}

/// The items before a closing brace.
#[tactic(auto, unfolding(c_reading::specs::Initialising::init_items_with, c_reading::specs::Reading::listed, c_reading::specs::Reading::and_then))]
fn items<'a, F>(
    lent: &F,
    room: u16,
    cursor: &mut Cursor<'a>,
    depth: u32,
) -> Result<Listing, ReadError>
where
    F: Fn(Ask, &mut Cursor<'a>) -> Result<Answer, ReadError>,
    requires { Lends F.Fn lent.now depth }
    ensures { ReadsListing cursor.old cursor.new result (init_items_with (knot depth) room) }
{
    if is_close_brace(kind_at(cursor.rest)) {
        return Ok(Listing {
            items: SizedInitItems::new(cursor.alloc),
            comma: None,
        });
    }
    let first = item(lent, room, cursor, depth)?;
    let known = one_item(cursor.alloc, first)?;
    more_items(lent, known, room, cursor, depth)
}

/// `InitList = { [InitItem (, InitItem)* [,]] }`, which must begin at the first token.
#[tactic(auto, unfolding(c_reading::specs::Initialising::init_list_with, c_reading::specs::Initialising::braced_with, c_reading::specs::Reading::fits, c_reading::specs::Reading::and_then), using(crate::proofs::InitForms::Pushed::items_are))]
pub fn init_list<'a, F>(
    lent: &F,
    room: u16,
    cursor: &mut Cursor<'a>,
    depth: u32,
) -> Result<SizedInitList, ReadError>
where
    F: Fn(Ask, &mut Cursor<'a>) -> Result<Answer, ReadError>,
    requires { Lends F.Fn lent.now depth }
    ensures { ReadsInitList cursor.old cursor.new result (init_list_with (knot depth) room) }
{
    if !is_open_brace(kind_at(cursor.rest)) {
        return Err(refused(FaultKind::Unexpected, cursor.rest));
    }
    room_for(1, room, cursor)?;
    let opening = take_one(cursor)?;
    let known = items(lent, room.saturating_sub(1), cursor, depth)?;
    let closing = close_brace(cursor)?;
    Ok(decl_nodes::init_list(opening, known.items, known.comma, closing))
}
