//! The tape of a unit, made while its items are read: each tree is let go behind its ops.

ghost use Rattle.std.specs.Prelude.{◌≡◌, ◌++◌, map, IfOk, OnOk};
ghost use Rattle.c_tree.specs.Unit.{item_of};
ghost use Rattle.c_tape.specs.Nodes.{op_of};
ghost use Rattle.c_tape.specs.Tape.{item_tape};
ghost use Rattle.reader_base.specs.Gives.{Gives, Reads};
ghost use Rattle.reader_base.specs.Lent.{Lends, ReadsAsked, asked_at};
ghost use Rattle.reader_base.specs.Looping.{IsLoop, Turns};
ghost use Rattle.c_parser.specs.Taping.{tape_turn, tapes_at, tape_at, tape_found};

use crate::knot::read;
use crate::unit_forms::item;
use c_reading::{FaultKind, turns_take_tokens};
use c_syntax::{Item, Unit};
use c_tape::{Node, OpList, tape};
use c_tree::Lexeme;
use held_scopes::TypedefScopes;
use qual_base::NoMemory;
use reader_base::{Answer, Ask, Cursor, ReadError, end, is_end, kind_at, refused};
use std::alloc::Global;
use tape_ops::Op;

/// The number of the readers of a unit, and the greatest height of its tree.
const MOST: u32 = 500;

/// The ops of an item, whose tree is let go. Linear in its nodes.
#[tactic(auto, using(crate::proofs::TapeOfItems::of_one_item))]
fn item_ops(alloc: Global, item: Item) -> Result<OpList, NoMemory>
    ensures { IfOk result (λ ops. ops ≡ item_tape (item_of item)) }
{
    let mut items = Vec::new(alloc);
    items.push(item)?;
    tape(alloc, &Unit { items })
}

/// Puts the ops of nodes behind others. Linear in them, but for growth.
#[tactic(auto, using(crate::proofs::TapeOfItems::mapped_on))]
fn add_ops(ops: &mut Vec<Op>, nodes: &[Node]) -> Result<(), NoMemory>
    ensures { OnOk result (ops.new.items ≡ ops.old.items ++ map op_of nodes.now) }
{
    for node in nodes {
        ops.push(node.op)?;
    }
    Ok(())
}

/// Each item takes a token.
fn tapes_step(room: u16, depth: u32)
    ensures { IsLoop (tape_turn depth room) }
{
    turns_take_tokens(depth);
}

/// An item more, where the unit does not end.
#[tactic(auto, unfolding(c_reading::specs::Reading::and_then))]
fn turn<'a, F>(
    lent: &F,
    ops: &mut Vec<Op>,
    room: u16,
    cursor: &mut Cursor<'a>,
    depth: u32,
) -> Result<bool, ReadError>
where
    F: Fn(Ask, &mut Cursor<'a>) -> Result<Answer, ReadError>,
    requires { Lends F.Fn lent.now depth }
    ensures { Turns ops.old.items ops.new.items cursor.old cursor.new result
        (tape_turn depth room) }
{
    if is_end(kind_at(cursor.rest)) {
        return Ok(false);
    }
    let next = item(lent, room, cursor, depth)?;
    let nodes = item_ops(cursor.alloc, next)?;
    add_ops(ops, nodes.as_slice())?;
    Ok(true)
}

/// The ops of the items of a unit, up to the end (C99, 6.9).
///
/// Linear in the tokens. One tree at a time is held, that of the item which is read.
#[tactic(auto, unfolding(crate::specs::Taping::tapes_at))]
fn tapes<'a, F>(
    lent: &F,
    room: u16,
    cursor: &mut Cursor<'a>,
    depth: u32,
) -> Result<Vec<Op>, ReadError>
where
    F: Fn(Ask, &mut Cursor<'a>) -> Result<Answer, ReadError>,
    requires { Lends F.Fn lent.now depth }
    ensures { Reads (λ ops. ops.items) cursor.old cursor.new result (tapes_at depth room) }
{
    tapes_step(room, depth);
    let mut ops = Vec::new(cursor.alloc);
    while turn(lent, &mut ops, room, cursor, depth)? {}
    Ok(ops)
}

/// The ops of the unit of these tokens, or the token that is refused.
#[tactic(auto, unfolding(crate::specs::Taping::tape_at, c_reading::specs::Reading::and_then))]
pub(crate) fn unit_tape(alloc: Global, wide: bool, all: &[Lexeme]) -> Result<Vec<Op>, ReadError>
    ensures { Gives (λ ops. tape_found wide ops.items) result (tape_at wide all.now) }
{
    let scopes = TypedefScopes::new(alloc, wide)?;
    let mut cursor = Cursor {
        alloc,
        rest: all,
        scopes,
    };
    let inner = |ask: Ask, cursor: &mut Cursor|
        ensures { ReadsAsked cursor.old cursor.new result (asked_at 500 ask) }
    { read(ask, cursor, MOST) };
    let found = tapes(&inner, 499, &mut cursor, MOST)?;
    end(&mut cursor)?;
    if !cursor.rest.is_empty() {
        return Err(refused(FaultKind::Unexpected, cursor.rest));
    }
    Ok(found)
}
