//! Parts that must stand at the first token, in more than one family of forms.

ghost use Rattle.c_reading.specs.Knot.{knot};
ghost use Rattle.c_tree.specs.Lists.{some_declr_from};
ghost use Rattle.c_reading.specs.Specifying.{named_declr, present, specs_here};
ghost use Rattle.reader_base.specs.Lent.{Lends, ReadsPresent, ReadsSpecs};

use crate::asking::{Answer, Ask};
use crate::cursor::{Cursor, room_for};
use crate::fault::{ReadError, refused};
use crate::inside::{declr_inside, specs_inside};
use crate::starts::begins_role;
use crate::tokens::kind_at;
use c_nodes::{PresentDeclr, SizedDeclr, SizedSpecs, present};
use c_reading::{FaultKind, Mode, Role};
use typedef_scope::Kind;

/// Specifiers of a role.
#[tactic(auto, unfolding(c_reading::specs::Specifying::specs_here, c_reading::specs::Reading::fits))]
pub fn specs_here<'a, F>(
    lent: &F,
    role: Role,
    room: u16,
    cursor: &mut Cursor<'a>,
    depth: u32,
) -> Result<SizedSpecs, ReadError>
where
    F: Fn(Ask, &mut Cursor<'a>) -> Result<Answer, ReadError>,
    requires { Lends F.Fn lent.now depth }
    ensures { ReadsSpecs cursor.old cursor.new result (specs_here (knot depth) role room) }
{
    if !begins_role(role, &cursor.scopes, kind_at(cursor.rest)) {
        return Err(refused(FaultKind::Unexpected, cursor.rest));
    }
    room_for(2, room, cursor)?;
    let known = SizedSpecs::new(cursor.alloc);
    let room = room.saturating_sub(1);
    specs_inside(lent, role, known, room, cursor, depth)
}

/// A declarator, which must be there.
pub fn known_declr(found: SizedDeclr, cursor: &mut Cursor) -> Result<PresentDeclr, ReadError>
    ensures { ReadsPresent cursor.old cursor.new result (present (some_declr_from found.declr)) }
{
    match present(found) {
        Some(found) => Ok(found),
        None => Err(refused(FaultKind::Unexpected, cursor.rest)),
    }
}

/// A declarator with a name, which is held for a kind where one is wanted.
#[tactic(auto, unfolding(c_reading::specs::Specifying::named_declr, c_reading::specs::Reading::and_then))]
pub fn named_declr<'a, F>(
    lent: &F,
    wanted: Option<Kind>,
    room: u16,
    cursor: &mut Cursor<'a>,
    depth: u32,
) -> Result<PresentDeclr, ReadError>
where
    F: Fn(Ask, &mut Cursor<'a>) -> Result<Answer, ReadError>,
    requires { Lends F.Fn lent.now depth }
    ensures { ReadsPresent cursor.old cursor.new result (named_declr (knot depth) wanted room) }
{
    let found = declr_inside(lent, Mode::Named, wanted, false, room, cursor, depth)?;
    known_declr(found.declr, cursor)
}
