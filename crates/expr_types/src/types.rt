//! The types of a program's expressions, found by key tokens.

ghost use Rattle.std.specs.Prelude.{◌≡◌, IfOk};
ghost use Rattle.name_rules.specs.Spellings.{Place};
ghost use Rattle.expr_shapes.specs.ShapeValues.Views.{some_value_type};
ghost use Rattle.unit_shapes.specs.Views.{names_in, AreImplicit};
ghost use Rattle.unit_types.specs.Resolved.{tapes_of};
ghost use Rattle.expr_types.specs.Along.{shapes_among, first_at};
ghost use Rattle.expr_types.specs.Views.{some_shape_in, found_at, shape_of_place, type_of_place};

use crate::along::find_unit;
use expr_shapes::shape_values::{ExprShape, ValueType, value};
use name_state::found_names::FoundNames;
use name_tables::place_map::PlaceMap;
use qual_base::{NoMemory, TokenId, UnitNo};
use std::alloc::Global;
use std::marker::Model;
use type_table::TypeTable;
use unit_shapes::ImplicitTypes;
use unit_types::{Program, UnitTape};

/// What is at the key tokens of units. Linear in their tapes, but for growth.
fn find_all(
    alloc: Global,
    names: &FoundNames,
    types: &TypeTable,
    implicit: &ImplicitTypes,
    units: &[UnitTape],
) -> Result<PlaceMap<ExprShape>, NoMemory>
    requires { AreImplicit types.now implicit.now }
    ensures { IfOk result (λ found. (at : Place) → found_at types.now found at
        ≡ first_at (shapes_among (names_in types.now names.now) (tapes_of units.now)) at) }
{
    let mut found = PlaceMap::new(alloc);
    for unit in units {
        find_unit(
            alloc,
            &mut found,
            &unit.spelling,
            names,
            types,
            implicit,
            &unit.ops,
        )?;
    }
    Ok(found)
}

/// The types of the expressions of a program, each found at once by the key token that it has there.
///
/// The key token of an expression is its operator's, for `?:` the `?`; the first `(` of a cast, a compound literal, a parenthesis
/// and a statement expression; `[` of an index and `(` of a call; and else its first token, as for names, numbers and texts.
/// Clauses see the program. Memory is linear in its tapes.
#[derive(Drop)]
pub struct ExpressionTypes<'a> {
    program: &'a Program,
    found: PlaceMap<ExprShape>,
}

impl<'a> Model for ExpressionTypes<'a> {
    ghost use Rattle.unit_types.specs.Resolved.{Resolved};
    ghost use Rattle.expr_types.specs.Held.{AreFound};

    ghost Value = { Resolved };

    ghost view = { λ s. s.program.now };

    ghost invariant = { AreFound };
}

impl<'a> ExpressionTypes<'a> {
    /// The types of the expressions of a program. Linear in its tapes, but for growth.
    pub fn of(alloc: Global, program: &'a Program) -> Result<Self, NoMemory>
        ensures { IfOk result (λ it. it ≡ program.now) }
    {
        let found = find_all(
            alloc,
            program.found_names(),
            program.types(),
            program.implicit(),
            program.units(),
        )?;
        Ok(ExpressionTypes { program, found })
    }

    /// What the expression with this key token is: a place or a value, and of which type. None where there is none.
    /// Constant time.
    pub fn shape_at(&self, unit: UnitNo, token: TokenId) -> Option<ExprShape>
        ensures { some_shape_in self.now.rows result ≡ shape_of_place self.now (unit, token) }
    {
        self.found.get(&(unit, token))
    }

    /// The type of the value of the expression with this key token, or else the type of the type's name that begins there. None
    /// where there is neither. Constant time.
    pub fn type_at(&self, unit: UnitNo, token: TokenId) -> Option<ValueType>
        ensures { some_value_type self.now.rows result ≡ type_of_place self.now (unit, token) }
    {
        match self.shape_at(unit, token) {
            Some(shape) => value(self.program.types(), &shape),
            None => match self.program.found_names().type_at(&(unit, token)) {
                Some(ty) => Some(ValueType::Of(ty)),
                None => None,
            },
        }
    }
}
