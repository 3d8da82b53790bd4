//! Where a reader stands.

ghost use Rattle.std.specs.Prelude.{◌≡◌, ℕ, suc};
ghost use Rattle.c_tree.specs.Capped.{capped};
ghost use Rattle.reader_base.specs.Fitting.{HasRoom};

use crate::fault::{ReadError, refused};
use c_reading::FaultKind;
use c_tree::Lexeme;
use held_scopes::TypedefScopes;
use std::alloc::Global;

/// Where a reader stands: the tokens that are left, and the scopes that are open.
#[derive(Drop)]
pub struct Cursor<'a> {
    pub alloc: Global,
    pub rest: &'a [Lexeme],
    pub scopes: TypedefScopes,
}

/// A tree that is at least so high has room, or the first token is refused.
pub fn room_for(least: u32, room: u16, cursor: &Cursor) -> Result<(), ReadError>
    ensures { HasRoom least room cursor.now.rest.now result }
{
    if least <= u32::from(room) {
        Ok(())
    } else {
        Err(refused(FaultKind::TooDeep, cursor.rest))
    }
}

/// A tree that is higher than a part of this height has room, or the first token is refused.
pub fn room_above(height: u32, room: u16, cursor: &Cursor) -> Result<(), ReadError>
    ensures { (n : ℕ) → height ≡ capped n → HasRoom (suc n) room cursor.now.rest.now result }
{
    if height < u32::from(room) {
        Ok(())
    } else {
        Err(refused(FaultKind::TooDeep, cursor.rest))
    }
}
