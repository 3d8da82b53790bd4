//! Members of structs and unions.

ghost use Rattle.std.specs.Prelude.{◌≡◌, ℕ, Option, IfOk, option_map, slice_get};
ghost use Rattle.type_table.specs.Types.{CType};
ghost use Rattle.type_table.specs.Rows.{type_of};
ghost use Rattle.name_rules.specs.Scopes.{body_of};
ghost use Rattle.name_rules.specs.Values as rules;
ghost use Rattle.expr_shapes.specs.ShapeValues.Views.{some_type, some_value_type, value_type};
ghost use Rattle.name_state.specs.UnitNames.Shown.{names_of, known_of};
ghost use Rattle.unit_shapes.specs.Views.{names_in};

use expr_shapes::shape_values::ValueType;
use name_state::unit_names::Names;
use name_tables::name_records::Known;
use qual_base::{NameId, NoMemory, Numbered, StructId, TypeId};
use type_table::{Shape, TypeTable};

/// A member of what has a type. Constant time.
fn member_of(names: &Names, types: &TypeTable, ty: TypeId, name: NameId) -> Option<Known>
    ensures { option_map (known_of (type_of types.now)) result
        ≡ rules.member_of (names_in types.now names.now).aggregates (type_of types.now ty) name }
{
    match types.shape(ty) {
        Shape::Struct(number) => names.member_at(*number, name),
        Shape::Base | Shape::Void | Shape::Ref(_) | Shape::Fun { .. } => None,
    }
}

/// A member of a value. Constant time.
fn member(names: &Names, types: &TypeTable, value: &ValueType, name: NameId) -> Option<Known>
    ensures { option_map (known_of (type_of types.now)) result
        ≡ rules.member_of (names_in types.now names.now).aggregates
        (value_type types.now value.now) name }
{
    match value {
        ValueType::Of(ty) => member_of(names, types, *ty, name),
        ValueType::PointerTo(_) => None,
    }
}

/// The type of a member, where that is known. Constant time.
pub(crate) fn member_type(
    names: &Names,
    types: &TypeTable,
    value: &Option<ValueType>,
    name: NameId,
) -> Option<TypeId>
    ensures { some_type types.now result
        ≡ rules.member_type (names_in types.now names.now).aggregates
        (some_value_type types.now value.now) name }
{
    match value {
        Some(value) => match member(names, types, value, name) {
            Some(known) => Some(known.ty),
            None => None,
        },
        None => None,
    }
}

/// The type of a member of what has a type, where both are known. Constant time.
pub(crate) fn member_of_type(
    names: &Names,
    types: &TypeTable,
    ty: &Option<TypeId>,
    name: NameId,
) -> Option<TypeId>
    ensures { some_type types.now result
        ≡ rules.member_type (names_in types.now names.now).aggregates
        (some_type types.now ty.now) name }
{
    match ty {
        Some(ty) => match member_of(names, types, *ty, name) {
            Some(known) => Some(known.ty),
            None => None,
        },
        None => None,
    }
}

/// Whether a value is known, and has no such member. Constant time.
pub(crate) fn lacks_member(
    names: &Names,
    types: &TypeTable,
    value: &Option<ValueType>,
    name: NameId,
) -> bool
    ensures { result ≡ rules.lacks_member (names_in types.now names.now).aggregates
        (some_value_type types.now value.now) name }
{
    match value {
        Some(value) => member(names, types, value, name).is_none(),
        None => false,
    }
}

/// The number of the own member behind a designated one. Constant time.
pub(crate) fn behind_member(
    names: &Names,
    types: &TypeTable,
    ty: &Option<TypeId>,
    name: NameId,
    next: usize,
) -> Result<usize, NoMemory>
    ensures { IfOk result (λ n. n
        ≡ rules.behind_member (names_in types.now names.now).aggregates
        (some_type types.now ty.now) name next) }
{
    let Some(ty) = ty else {
        return Ok(next);
    };
    match member_of(names, types, *ty, name) {
        Some(known) => match known.own.checked_add(1) {
            Some(behind) => Ok(behind),
            None => Err(NoMemory),
        },
        None => Ok(next),
    }
}
