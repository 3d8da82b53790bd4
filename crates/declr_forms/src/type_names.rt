//! Names of types (C99, 6.7.6).

ghost use Rattle.c_reading.specs.Declaring as declaring;
ghost use Rattle.c_reading.specs.Knot.{knot};
ghost use Rattle.reader_base.specs.Lent.{Lends, ReadsTypeName};

use c_nodes::{SizedSpecs, SizedTypeName};
use c_reading::{Mode, Role};
use reader_base::{Answer, Ask, Cursor, ReadError, declr_inside, specs_inside};

/// `TypeName = Specs [absdeclr]`. Constant time, beside the readers inside.
#[tactic(auto, unfolding(c_reading::specs::Declaring::type_name_with, c_reading::specs::Reading::and_then))]
pub fn type_name<'a, F>(
    lent: &F,
    room: u16,
    cursor: &mut Cursor<'a>,
    depth: u32,
) -> Result<SizedTypeName, ReadError>
where
    F: Fn(Ask, &mut Cursor<'a>) -> Result<Answer, ReadError>,
    requires { Lends F.Fn lent.now depth }
    ensures { ReadsTypeName cursor.old cursor.new result
        (declaring.type_name_with (knot depth) room) }
{
    let inner = room.saturating_sub(1);
    let none = SizedSpecs::new(cursor.alloc);
    let words = specs_inside(lent, Role::Naming, none, inner, cursor, depth)?;
    let found = declr_inside(lent, Mode::Abstract, None, false, inner, cursor, depth)?;
    Ok(c_nodes::type_name(words, found.declr))
}
