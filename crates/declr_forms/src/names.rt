//! Names of declarators (C99, 6.7.5).

ghost use Rattle.std.specs.Prelude.{◌≡◌, IfOk};
ghost use Rattle.std.specs.Bool.{then_some};
ghost use Rattle.c_units.specs.Scoping.{at_name};
ghost use Rattle.c_reading.specs.Declaring as declaring;
ghost use Rattle.c_reading.specs.Reading as reading;
ghost use Rattle.c_reading.specs.Knot.{knot};
ghost use Rattle.declr_forms.specs.Names as names;
ghost use Rattle.reader_base.specs.Lent.{ReadsDeclr};

use c_nodes::{base_name, declr_name, no_declr};
use c_reading::{FaultKind, Mode};
use qual_base::{NameId, NoMemory};
use reader_base::{
    Cursor, Declared, ReadError, is_base_word, kind_at, refused, room_for, spelled_name, take_one,
};
use typedef_scope::Kind;

/// Whether a declarator with a name may stand.
pub(crate) fn takes_name(mode: Mode) -> bool
    ensures { result ≡ declaring.takes_name mode }
{
    match mode {
        Mode::Named | Mode::Either => true,
        Mode::Abstract => false,
    }
}

/// No declarator, where none may stand.
fn absent(mode: Mode, cursor: &mut Cursor) -> Result<Declared, ReadError>
    ensures { ReadsDeclr cursor.old cursor.new result (declaring.absent mode) }
{
    match mode {
        Mode::Named => Err(refused(FaultKind::Unexpected, cursor.rest)),
        Mode::Abstract | Mode::Either => Ok(Declared {
            declr: no_declr(),
            closed: None,
        }),
    }
}

/// Has the innermost scope hold a name where a kind is wanted, and answers whether it may.
fn hold_wanted(wanted: Option<Kind>, name: NameId, cursor: &mut Cursor) -> Result<bool, NoMemory>
    ensures held { IfOk result
        (λ may. at_name wanted name cursor.old.scopes ≡ then_some may cursor.new.scopes) }
    ensures rest { cursor.new.rest ≡ cursor.old.rest }
{
    match wanted {
        Some(kind) => {
            let may = cursor.scopes.hold(name, kind)?;
            Ok(may)
        }
        None => Ok(true),
    }
}

/// A name at the first token, which is held where a kind is wanted.
#[tactic(auto, unfolding(c_reading::specs::Reading::and_then, c_reading::specs::Reading::fits))]
fn held_name(
    wanted: Option<Kind>,
    name: NameId,
    room: u16,
    cursor: &mut Cursor,
) -> Result<Declared, ReadError>
    ensures { ReadsDeclr cursor.old cursor.new result (names.held_at wanted name room) }
{
    if !hold_wanted(wanted, name, cursor)? {
        return Err(refused(FaultKind::Redeclared, cursor.rest));
    }
    room_for(1, room, cursor)?;
    let [first, rest @ ..] = cursor.rest else {
        return Err(refused(FaultKind::Unexpected, cursor.rest));
    };
    let declr = declr_name(cursor.alloc, first.at, name)?;
    cursor.rest = rest;
    Ok(Declared {
        declr,
        closed: None,
    })
}

/// A name where one stands and may, or no declarator.
pub(crate) fn name_or_none(
    mode: Mode,
    wanted: Option<Kind>,
    room: u16,
    cursor: &mut Cursor,
    depth: u32,
) -> Result<Declared, ReadError>
    ensures { ReadsDeclr cursor.old cursor.new result
        (names.name_at (knot depth) mode wanted room) }
{
    let Some(name) = spelled_name(kind_at(cursor.rest)) else {
        return absent(mode, cursor);
    };
    if takes_name(mode) {
        held_name(wanted, name, room, cursor)
    } else {
        absent(mode, cursor)
    }
}

/// Whether a base word stands here as the name of a typedef, in wider C.
pub(crate) fn names_base(mode: Mode, wanted: Option<Kind>, cursor: &Cursor) -> bool
    ensures { result ≡ declaring.names_base cursor.now.scopes mode wanted
        (reading.kind_at cursor.now.rest.now) }
{
    match (mode, wanted) {
        (Mode::Named, Some(Kind::Typedef)) => {
            cursor.scopes.is_wide() && is_base_word(kind_at(cursor.rest))
        }
        _ => false,
    }
}

/// A base word as the name of a typedef, which declares nothing.
#[tactic(auto, unfolding(c_reading::specs::Reading::and_then, c_reading::specs::Reading::fits))]
pub(crate) fn base_named(room: u16, cursor: &mut Cursor) -> Result<Declared, ReadError>
    ensures { ReadsDeclr cursor.old cursor.new result (declaring.base_named room) }
{
    room_for(1, room, cursor)?;
    let token = take_one(cursor)?;
    let declr = base_name(cursor.alloc, token)?;
    Ok(Declared {
        declr,
        closed: None,
    })
}
