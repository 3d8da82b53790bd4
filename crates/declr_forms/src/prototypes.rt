//! Parameters in parentheses behind a declarator, in a scope of their own (C99, 6.7.5.3).
//!
//! `depth` is the number of the readers of lists that the lent one gives; `room` is the greatest
//! height that the tree may have.

ghost use Rattle.std.specs.Prelude.{◌≡◌, IfOk, is_some};
ghost use Rattle.c_tree.specs.Lists.{some_declr_from};
ghost use Rattle.c_tree.specs.View.{declr_of};
ghost use Rattle.c_units.specs.HeldScopes.{is_wide, new_scope};
ghost use Rattle.c_units.specs.Units.{bare_name};
ghost use Rattle.c_reading.specs.Declaring as declaring;
ghost use Rattle.c_reading.specs.Knot.{knot};
ghost use Rattle.declr_forms.specs.Views.{behind_paren};
ghost use Rattle.reader_base.specs.Lent.{Lends, ReadsDeclr, declared_of};

use crate::parameters::parameters;
use c_nodes::{
    PresentDeclr, SizedDeclr, no_declr, present, some_declr, with_identifiers, with_params,
};
use c_syntax::{Attr, Declr};
use held_scopes::Closed;
use qual_base::{NoMemory, TokenId};
use reader_base::{
    Answer, Ask, Cursor, Declared, ReadError, begins_identifiers, close_paren, identifiers,
    take_one,
};

/// Whether a declarator is a name alone, parentheses aside. Linear in the parentheses.
fn is_bare(declr: &Declr) -> bool
    ensures { result ≡ is_some (bare_name (declr_of declr.now)) }
{
    let mut part = declr;
    loop {
        match part {
            Declr::DeclParen { inner, .. } => part = inner,
            Declr::DeclName { .. } => return true,
            Declr::Pointer { .. }
            | Declr::Array { .. }
            | Declr::Params { .. }
            | Declr::AbsPointer { .. }
            | Declr::AbsParen { .. }
            | Declr::AbsArray { .. }
            | Declr::AbsParams { .. }
            | Declr::Identifiers { .. }
            | Declr::BaseName { .. } => return false,
        }
    }
}

/// Whether there is a declarator that is a name alone, parentheses aside.
pub(crate) fn is_bare_name(declr: &SizedDeclr) -> bool
    ensures { result ≡ declaring.is_bare (some_declr_from declr.now.declr) }
{
    match &declr.declr {
        Some(declr) => is_bare(declr),
        None => false,
    }
}

/// The scope of the parameters directly around the name, where these are such.
fn closed_by(declr: &SizedDeclr, scope: Closed, closed: Option<Closed>) -> Option<Closed>
    ensures { result ≡ declaring.closed_by (some_declr_from declr.now.declr) scope closed }
{
    if is_bare_name(declr) {
        Some(scope)
    } else {
        closed
    }
}

/// `[Param (, Param)* [, qual* ...]] )`, behind a declarator or none, the parenthesis and attributes
/// of the first.
#[tactic(auto, unfolding(c_reading::specs::Declaring::prototype_with, c_reading::specs::Reading::and_then), using(crate::proofs::Named::named_params, crate::proofs::Words::same_params))]
pub(crate) fn prototype<'a, F>(
    lent: &F,
    known: Declared,
    opening: TokenId,
    lead: Vec<Attr>,
    room: u16,
    cursor: &mut Cursor<'a>,
    depth: u32,
) -> Result<Declared, ReadError>
where
    F: Fn(Ask, &mut Cursor<'a>) -> Result<Answer, ReadError>,
    requires { Lends F.Fn lent.now depth }
    ensures { ReadsDeclr cursor.old cursor.new result
        (declaring.prototype_with (knot depth) (declared_of known) opening lead.items room) }
{
    let Declared {
        declr: inner,
        closed: before,
    } = known;
    cursor.scopes.enter()?;
    let list = parameters(lent, lead, room.saturating_sub(1), cursor, depth)?;
    let closing = close_paren(cursor)?;
    let scope = cursor.scopes.close();
    let closed = closed_by(&inner, scope, before);
    let declr = with_params(cursor.alloc, inner, opening, list.items, list.dots, closing)?;
    Ok(Declared { declr, closed })
}

/// A scope without names, of the same unit.
fn fresh_scope(cursor: &mut Cursor) -> Result<Closed, NoMemory>
    ensures made { IfOk result (λ scope. scope ≡ new_scope (is_wide cursor.old.scopes)) }
    ensures same { IfOk result (λ _. cursor.new.scopes ≡ cursor.old.scopes) }
    ensures rest { cursor.new.rest ≡ cursor.old.rest }
{
    cursor.scopes.enter()?;
    Ok(cursor.scopes.close())
}

/// `Params = direct ( Name (, Name)* )`, behind a name and the parenthesis. The scope of the
/// declarations behind it has no names yet.
#[tactic(auto, unfolding(c_reading::specs::Declaring::identifiers_with, c_reading::specs::Reading::and_then))]
fn list_behind(
    inner: PresentDeclr,
    opening: TokenId,
    cursor: &mut Cursor,
    depth: u32,
) -> Result<Declared, ReadError>
    ensures { ReadsDeclr cursor.old cursor.new result
        (declaring.identifiers_with (knot depth) (declr_of inner.declr.value) opening) }
{
    let closed = fresh_scope(cursor)?;
    let names = identifiers(cursor)?;
    let closing = close_paren(cursor)?;
    let declr = with_identifiers(cursor.alloc, inner, opening, names, closing)?;
    Ok(Declared {
        declr,
        closed: Some(closed),
    })
}

/// Parameters, or a list of identifiers, behind what may be a function's declarator and the
/// parenthesis.
fn behind_paren<'a, F>(
    lent: &F,
    known: Declared,
    opening: TokenId,
    room: u16,
    cursor: &mut Cursor<'a>,
    depth: u32,
) -> Result<Declared, ReadError>
where
    F: Fn(Ask, &mut Cursor<'a>) -> Result<Answer, ReadError>,
    requires { Lends F.Fn lent.now depth }
    ensures { ReadsDeclr cursor.old cursor.new result
        (behind_paren depth (declared_of known) opening room) }
{
    let Declared { declr, closed } = known;
    let lead = Vec::new(cursor.alloc);
    match present(declr) {
        Some(inner) => {
            if is_bare(&inner.declr) && begins_identifiers(cursor) {
                return list_behind(inner, opening, cursor, depth);
            }
            let declr = some_declr(inner);
            let known = Declared { declr, closed };
            prototype(lent, known, opening, lead, room, cursor, depth)
        }
        None => {
            let declr = no_declr();
            let known = Declared { declr, closed };
            prototype(lent, known, opening, lead, room, cursor, depth)
        }
    }
}

/// Parameters in parentheses, or a list of identifiers, behind a declarator that may be a function's
/// or not.
#[tactic(auto, unfolding(c_reading::specs::Reading::and_then))]
pub(crate) fn params_behind<'a, F>(
    lent: &F,
    flag: bool,
    known: Declared,
    room: u16,
    cursor: &mut Cursor<'a>,
    depth: u32,
) -> Result<Declared, ReadError>
where
    F: Fn(Ask, &mut Cursor<'a>) -> Result<Answer, ReadError>,
    requires { Lends F.Fn lent.now depth }
    ensures { ReadsDeclr cursor.old cursor.new result
        (declaring.params_behind (knot depth) flag (declared_of known) room) }
{
    let opening = take_one(cursor)?;
    if flag {
        return behind_paren(lent, known, opening, room, cursor, depth);
    }
    let lead = Vec::new(cursor.alloc);
    prototype(lent, known, opening, lead, room, cursor, depth)
}
