//! Positions of variables.

use qual_base::{TokenId, UnitNo};

/// A step from a variable of a type to one inside it: to what a reference holds, to a parameter by its number from 0, to the
/// result of a function, to what stands for all further arguments of one.
#[derive(Clone, Copy, PartialEq, Eq, Debug)]
pub enum Step {
    Inside,
    Param(u32),
    Result,
    Ellipsis,
}

/// Where a variable stands: the token of a name or an expression in its unit, and the steps inwards from its type.
#[derive(Drop, Debug)]
pub struct Position {
    pub unit: UnitNo,
    pub token: TokenId,
    pub path: Vec<Step>,
}
