//! What the lines name: units, lattices and variables.

ghost use Rattle.std.specs.Prelude.{◌≡◌, slice_get, option_map, Some, IfSome};
ghost use Rattle.std.specs.List.{Contains};
ghost use Rattle.annotate.specs.Texts.{unit_in, bytes_in, name_in};
ghost use Rattle.annotate.specs.Scenes.{unit_of, units_of, AreApart};

use c_lexer::Tokens;
use lattice_core::Lattices;
use qual_base::{Elem, LatticeNo, Numbered, TokenId, UnitNo, VarId};
use qual_types::VarTable;

/// A unit: the name of its file, and its tokens.
#[derive(Clone, Copy)]
pub struct UnitText<'a> {
    pub file: &'a str,
    pub tokens: &'a Tokens<'a>,
}

/// What the lines name: the units of a program, the lattices, the variables, and the variables that the accepted report
/// lists, in its order. A unit is found by its own number, wherever it stands in the list.
#[derive(Clone, Copy)]
pub struct Scene<'a> {
    pub units: &'a [UnitText<'a>],
    pub lattices: &'a Lattices,
    pub vars: &'a VarTable,
    pub listed: &'a [VarId],
}

/// The unit with a number: the first of the list that has it. Linear in the number of units.
pub fn find_unit<'a>(units: &'a [UnitText<'a>], number: UnitNo) -> Option<UnitText<'a>>
    ensures { option_map unit_of result ≡ unit_in (units_of units.now) number }
{
    for unit in units {
        if unit.tokens.unit() == number {
            return Some(*unit);
        }
    }
    None
}

/// The unit with a number, where units are in the order of their numbers and none is left out. Constant time.
fn unit_in_order<'a>(units: &'a [UnitText<'a>], number: UnitNo) -> Option<UnitText<'a>>
    ensures one { IfSome result (λ it. Contains units.now it) }
    ensures number { IfSome result (λ it. it.tokens.now.unit ≡ number) }
{
    let first = units.first()?;
    let index = number.number().checked_sub(first.tokens.unit().number())?;
    let unit = units.get(index as usize)?;
    if unit.tokens.unit().number() == number.number() {
        Some(*unit)
    } else {
        None
    }
}

/// The unit with a number, as `find_unit` finds it, where no two have one number. Constant time where the units are in the
/// order of their numbers and none is left out, and linear in their number otherwise.
pub fn unit_at<'a>(units: &'a [UnitText<'a>], number: UnitNo) -> Option<UnitText<'a>>
    ensures { AreApart (units_of units.now) →
        option_map unit_of result ≡ unit_in (units_of units.now) number }
{
    match unit_in_order(units, number) {
        Some(unit) => Some(unit),
        None => find_unit(units, number),
    }
}

/// The bytes of a token of a unit; none where there is no such token.
pub fn bytes_of<'a>(unit: &UnitText<'a>, token: TokenId) -> &'a [u8]
    ensures { result.now ≡ bytes_in (Some (unit_of unit.now)) token }
{
    if token.number() < unit.tokens.len() {
        unit.tokens.bytes(token)
    } else {
        b""
    }
}

/// The name of an element; none where there is no such lattice or element.
pub fn name_of(lattices: &Lattices, lattice: LatticeNo, elem: Elem) -> &[u8]
    ensures { result.now ≡ name_in (slice_get lattices.now lattice) elem }
{
    if lattice.number() >= lattices.len() {
        return b"";
    }
    let lattice = lattices.get(lattice);
    lattice.law();
    if elem.number() >= lattice.size() {
        return b"";
    }
    lattice.name_of(elem)
}
