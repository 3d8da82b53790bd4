//! Lists of names with a comma between two: identifiers of a function in the form of before C89, and labels.

ghost use Rattle.std.specs.Prelude.{◌≡◌, if◌then◌else◌};
ghost use Rattle.c_reading.specs.Declaring as declaring;
ghost use Rattle.c_reading.specs.Reading.{kind_at};
ghost use Rattle.c_reading.specs.Tokens.{name_at, spelled_name};
ghost use Rattle.reader_base.specs.Gives.{Reads, ReadsRow, Takes};
ghost use Rattle.reader_base.specs.Looping.{IsLoop, Turns};
ghost use Rattle.reader_base.specs.Lists.{behind_name, known_names, name_turn};

use crate::cursor::Cursor;
use crate::fault::{ReadError, refused};
use crate::kinds::is_comma;
use crate::tokens::{kind_at, name, spelled_name};
use c_reading::FaultKind;
use c_syntax::Identifier;

/// Whether the first token is a name that is no typedef name.
fn is_identifier(cursor: &Cursor) -> bool
    ensures { result ≡ declaring.is_identifier cursor.now.scopes
        (spelled_name (kind_at cursor.now.rest.now)) }
{
    match spelled_name(kind_at(cursor.rest)) {
        Some(name) => !cursor.scopes.names_type(name),
        None => false,
    }
}

/// Whether a list of identifiers begins here, in wider C.
pub fn begins_identifiers(cursor: &Cursor) -> bool
    ensures { result ≡ declaring.begins_identifiers cursor.now.scopes
        (kind_at cursor.now.rest.now) }
{
    cursor.scopes.is_wide() && is_identifier(cursor)
}

/// An identifier of a list, or, for labels, any name.
fn one_name(any: bool, cursor: &mut Cursor) -> Result<Identifier, ReadError>
    ensures { Takes cursor.old cursor.new result
        (if any then name_at else declaring.identifier_at) }
{
    if any || is_identifier(cursor) {
        name(cursor)
    } else {
        Err(refused(FaultKind::Unexpected, cursor.rest))
    }
}

/// Each name that is read takes a token.
fn names_step(any: bool)
    ensures { IsLoop (name_turn any) }
{}

/// One name more behind a comma, where one stands.
#[tactic(auto, unfolding(crate::specs::Lists::name_turn, c_reading::specs::Reading::and_then))]
fn next_name(any: bool, known: &mut Vec<Identifier>, cursor: &mut Cursor) -> Result<bool, ReadError>
    ensures { Turns (known_names known.old.items) (known_names known.new.items) cursor.old
        cursor.new result (name_turn any) }
{
    let [first, rest @ ..] = cursor.rest else {
        return Ok(false);
    };
    if !is_comma(first.kind) {
        return Ok(false);
    }
    cursor.rest = rest;
    let next = one_name(any, cursor)?;
    known.push(next)?;
    Ok(true)
}

/// The names behind the first.
fn more_names(
    any: bool,
    first: Identifier,
    cursor: &mut Cursor,
) -> Result<Vec<Identifier>, ReadError>
    ensures { Reads (λ row. known_names row.items) cursor.old cursor.new result
        (behind_name any first) }
{
    names_step(any);
    let mut known = Vec::new(cursor.alloc);
    known.push(first)?;
    while next_name(any, &mut known, cursor)? {}
    Ok(known)
}

/// Names with a comma between two.
#[tactic(auto, unfolding(crate::specs::Lists::name_turn, c_reading::specs::Declaring::names_list, c_reading::specs::Reading::listed, c_reading::specs::Reading::and_then))]
fn list_of(any: bool, cursor: &mut Cursor) -> Result<Vec<Identifier>, ReadError>
    ensures { ReadsRow cursor.old cursor.new result
        (declaring.names_list (if any then name_at else declaring.identifier_at)) }
{
    let first = one_name(any, cursor)?;
    more_names(any, first, cursor)
}

/// `Name (, Name)*`, of which none is a typedef name.
pub fn identifiers(cursor: &mut Cursor) -> Result<Vec<Identifier>, ReadError>
    ensures { ReadsRow cursor.old cursor.new result
        (declaring.names_list declaring.identifier_at) }
{
    list_of(false, cursor)
}

/// `Name (, Name)*`. Linear in them.
pub fn names(cursor: &mut Cursor) -> Result<Vec<Identifier>, ReadError>
    ensures { ReadsRow cursor.old cursor.new result (declaring.names_list name_at) }
{
    list_of(true, cursor)
}
