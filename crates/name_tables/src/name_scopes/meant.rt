//! What a name stands for.

use qual_base::{TokenId, TypeId, UnitNo};

/// A token of a unit.
pub type Place = (UnitNo, TokenId);

/// What a name stands for in a scope: a type, or what is declared first at a place.
#[derive(Clone, Copy, PartialEq, Eq, Debug, Drop)]
pub enum Meant {
    Type(TypeId),
    Thing(Place),
}
