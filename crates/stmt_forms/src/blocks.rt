//! Blocks (C99, 6.8.2).

ghost use Rattle.c_reading.specs.Knot.{knot};
ghost use Rattle.c_reading.specs.Stating as stating;
ghost use Rattle.reader_base.specs.Gives.{Reads};
ghost use Rattle.reader_base.specs.Lent.{Lends, ReadsBlock};
ghost use Rattle.reader_base.specs.Looping.{IsLoop, Turns};
ghost use Rattle.stmt_forms.specs.InBlocks.{ReadsItem, body_at, item_turn, items_at, known_items};
ghost use Rattle.stmt_forms.specs.InBlocks.{label_turn, labels_at, more_items_at};

use crate::items::block_item;
use c_nodes::{SizedBlock, SizedBlockItem, SizedBlockItems};
use c_reading::{FaultKind, turns_take_tokens};
use decl_nodes::{block_labels, block_of};
use reader_base::{
    Answer, Ask, Cursor, ReadError, close_brace, is_close_brace, is_label_word, is_open_brace,
    kind_at, names, refused, room_for, semicolon, take_one,
};

/// Each item that is read takes a token.
fn items_step(room: u16, depth: u32)
    ensures { IsLoop (item_turn depth room) }
{
    turns_take_tokens(depth);
}

/// An item more, where the block does not end.
#[tactic(auto, unfolding(c_reading::specs::Reading::and_then), using(crate::proofs::Rows::one_item_mapped))]
fn item_turn<'a, F>(
    lent: &F,
    known: &mut SizedBlockItems,
    room: u16,
    cursor: &mut Cursor<'a>,
    depth: u32,
) -> Result<bool, ReadError>
where
    F: Fn(Ask, &mut Cursor<'a>) -> Result<Answer, ReadError>,
    requires { Lends F.Fn lent.now depth }
    ensures { Turns (known_items known.old) (known_items known.new) cursor.old cursor.new
        result (item_turn depth room) }
{
    if is_close_brace(kind_at(cursor.rest)) {
        return Ok(false);
    }
    let item = block_item(lent, room, cursor, depth)?;
    known.push(item)?;
    Ok(true)
}

/// `LabelDecl = __label__ Name (, Name)* ;`.
#[tactic(auto, unfolding(c_reading::specs::Stating::labels_with, c_reading::specs::Reading::fits, c_reading::specs::Reading::and_then))]
fn labels_item(room: u16, cursor: &mut Cursor, depth: u32) -> Result<SizedBlockItem, ReadError>
    ensures { ReadsItem cursor.old cursor.new result (stating.labels_with (knot depth) room) }
{
    room_for(1, room, cursor)?;
    let keyword = take_one(cursor)?;
    let names = names(cursor)?;
    let semi = semicolon(cursor)?;
    Ok(block_labels(keyword, names, semi))
}

/// Each declaration of labels takes a token.
fn labels_step(room: u16, depth: u32)
    ensures { IsLoop (label_turn depth room) }
{
    turns_take_tokens(depth);
}

/// A declaration of labels more, where one stands.
#[tactic(auto, unfolding(c_reading::specs::Reading::and_then), using(crate::proofs::Rows::one_item_mapped))]
fn label_turn(
    known: &mut SizedBlockItems,
    room: u16,
    cursor: &mut Cursor,
    depth: u32,
) -> Result<bool, ReadError>
    ensures { Turns (known_items known.old) (known_items known.new) cursor.old cursor.new
        result (label_turn depth room) }
{
    if !is_label_word(kind_at(cursor.rest)) {
        return Ok(false);
    }
    let item = labels_item(room, cursor, depth)?;
    known.push(item)?;
    Ok(true)
}

/// Declarations of labels, as many as stand.
#[tactic(auto, unfolding(c_reading::specs::Reading::repeated))]
fn labels(room: u16, cursor: &mut Cursor, depth: u32) -> Result<SizedBlockItems, ReadError>
    ensures { Reads known_items cursor.old cursor.new result (labels_at depth room) }
{
    labels_step(room, depth);
    let mut known = SizedBlockItems::new(cursor.alloc);
    while label_turn(&mut known, room, cursor, depth)? {}
    Ok(known)
}

/// The items behind the first ones, up to a closing brace.
fn more_items<'a, F>(
    lent: &F,
    first: SizedBlockItems,
    room: u16,
    cursor: &mut Cursor<'a>,
    depth: u32,
) -> Result<SizedBlockItems, ReadError>
where
    F: Fn(Ask, &mut Cursor<'a>) -> Result<Answer, ReadError>,
    requires { Lends F.Fn lent.now depth }
    ensures { Reads known_items cursor.old cursor.new result
        (more_items_at depth (known_items first) room) }
{
    items_step(room, depth);
    let mut known = first;
    while item_turn(lent, &mut known, room, cursor, depth)? {}
    Ok(known)
}

/// The items of a block, up to a closing brace.
#[tactic(auto, unfolding(c_reading::specs::Reading::and_then))]
fn items<'a, F>(
    lent: &F,
    room: u16,
    cursor: &mut Cursor<'a>,
    depth: u32,
) -> Result<SizedBlockItems, ReadError>
where
    F: Fn(Ask, &mut Cursor<'a>) -> Result<Answer, ReadError>,
    requires { Lends F.Fn lent.now depth }
    ensures { Reads known_items cursor.old cursor.new result (items_at depth room) }
{
    let first = labels(room, cursor, depth)?;
    more_items(lent, first, room, cursor, depth)
}

/// The items in their braces.
#[tactic(auto, unfolding(c_reading::specs::Reading::and_then), using(crate::proofs::Rows::items_same))]
fn braced<'a, F>(
    lent: &F,
    room: u16,
    cursor: &mut Cursor<'a>,
    depth: u32,
) -> Result<SizedBlock, ReadError>
where
    F: Fn(Ask, &mut Cursor<'a>) -> Result<Answer, ReadError>,
    requires { Lends F.Fn lent.now depth }
    ensures { ReadsBlock cursor.old cursor.new result (body_at depth room) }
{
    let opening = take_one(cursor)?;
    let items = items(lent, room.saturating_sub(1), cursor, depth)?;
    let closing = close_brace(cursor)?;
    Ok(block_of(opening, items, closing))
}

/// `{ LabelDecl* (decl | stmt)* }` at its brace, in a scope that is open. Linear in the tokens.
#[tactic(auto, using(crate::proofs::Bodies::body_is))]
pub fn block_body<'a, F>(
    lent: &F,
    room: u16,
    cursor: &mut Cursor<'a>,
    depth: u32,
) -> Result<SizedBlock, ReadError>
where
    F: Fn(Ask, &mut Cursor<'a>) -> Result<Answer, ReadError>,
    requires { Lends F.Fn lent.now depth }
    ensures { ReadsBlock cursor.old cursor.new result (stating.block_body (knot depth) room) }
{
    braced(lent, room, cursor, depth)
}

/// `{ (decl | stmt)* }`, in a scope of its own (C99, 6.8.2).
///
/// Linear in the tokens; what is inside is read by `lent`. A height above the room is refused.
#[tactic(auto, unfolding(c_reading::specs::Stating::block_with, c_reading::specs::Reading::fits, c_reading::specs::Reading::and_then))]
pub fn block<'a, F>(
    lent: &F,
    room: u16,
    cursor: &mut Cursor<'a>,
    depth: u32,
) -> Result<SizedBlock, ReadError>
where
    F: Fn(Ask, &mut Cursor<'a>) -> Result<Answer, ReadError>,
    requires { Lends F.Fn lent.now depth }
    ensures { ReadsBlock cursor.old cursor.new result (stating.block_with (knot depth) room) }
{
    if !is_open_brace(kind_at(cursor.rest)) {
        return Err(refused(FaultKind::Unexpected, cursor.rest));
    }
    room_for(1, room, cursor)?;
    cursor.scopes.enter()?;
    let found = block_body(lent, room, cursor, depth)?;
    cursor.scopes.leave();
    Ok(found)
}
