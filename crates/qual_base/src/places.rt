//! Places in units, and who owns a variable.

use crate::ids::{FuncId, TokenId, UnitNo};

/// The tokens of a node, from its first to its last.
#[derive(Clone, Copy, PartialEq, Eq, Debug)]
pub struct Span {
    pub unit: UnitNo,
    pub from: TokenId,
    pub to: TokenId,
}

/// A place in a unit as a report names it.
///
/// The file name is the byte range `name_from..name_to` of the unit, taken from a linemarker; equal numbers stand for
/// the unit's own name. Lines and columns count from 1, and a column is a number of bytes.
#[derive(Clone, Copy, PartialEq, Eq, Debug)]
pub struct Spot {
    pub unit: UnitNo,
    pub name_from: u32,
    pub name_to: u32,
    pub line: u64,
    pub column: u64,
}

/// The function that a variable or a site belongs to, or nobody.
#[derive(Clone, Copy, PartialEq, Eq, Debug)]
pub enum Owner {
    Nobody,
    Function(FuncId),
}
