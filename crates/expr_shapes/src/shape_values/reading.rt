//! Values that are read from places, and what pointers point at.

ghost use Rattle.std.specs.Prelude.{◌≡◌, List};
ghost use Rattle.type_table.specs.declared.row.TypeRow as row;
ghost use Rattle.type_table.specs.Rows.{type_of};
ghost use Rattle.name_rules.specs.Values as rules;
ghost use Rattle.expr_shapes.specs.ShapeValues.Views.{value_type, some_value_type, some_type, shape_in, is_plain_void};

use crate::shape_values::shape::{ExprShape, ValueType};
use qual_base::TypeId;
use type_table::{Shape, TypeTable};

/// The value of a place: of one in which a function is, a pointer to it. Constant time.
pub fn read_from(types: &TypeTable, ty: TypeId) -> ValueType
    ensures { value_type types.now result ≡ rules.read_from (type_of types.now ty) }
{
    match types.shape(ty) {
        Shape::Fun { .. } => ValueType::PointerTo(ty),
        Shape::Base | Shape::Void | Shape::Ref(_) | Shape::Struct(_) => ValueType::Of(ty),
    }
}

/// The type of an expression's value. Constant time.
pub fn value(types: &TypeTable, shape: &ExprShape) -> Option<ValueType>
    ensures { some_value_type types.now result ≡ rules.value (shape_in types.now shape.now) }
{
    match shape {
        ExprShape::Place(Some(ty)) => Some(read_from(types, *ty)),
        ExprShape::Place(None) => None,
        ExprShape::Value(value) => *value,
    }
}

/// Whether a value is a pointer. Constant time.
pub fn is_pointer(types: &TypeTable, value: &ValueType) -> bool
    ensures { result ≡ rules.is_pointer (value_type types.now value.now) }
{
    match value {
        ValueType::PointerTo(_) => true,
        ValueType::Of(ty) => match types.shape(*ty) {
            Shape::Ref(_) => true,
            Shape::Base | Shape::Void | Shape::Fun { .. } | Shape::Struct(_) => false,
        },
    }
}

/// Whether a value is known, and no pointer. Constant time.
pub fn is_no_pointer(types: &TypeTable, value: &Option<ValueType>) -> bool
    ensures { result ≡ rules.is_no_pointer (some_value_type types.now value.now) }
{
    match value {
        Some(value) => !is_pointer(types, value),
        None => false,
    }
}

/// Whether a value is known, and a number. Constant time.
pub fn is_base(types: &TypeTable, value: &Option<ValueType>) -> bool
    ensures { result ≡ rules.is_base_value (some_value_type types.now value.now) }
{
    match value {
        Some(ValueType::Of(ty)) => match types.shape(*ty) {
            Shape::Base => true,
            Shape::Void | Shape::Ref(_) | Shape::Fun { .. } | Shape::Struct(_) => false,
        },
        Some(ValueType::PointerTo(_)) | None => false,
    }
}

/// The type of what a pointer points at; no other value has one. Constant time.
pub fn target_of(types: &TypeTable, value: &ValueType) -> Option<TypeId>
    ensures { some_type types.now result ≡ rules.target (value_type types.now value.now) }
{
    match value {
        ValueType::PointerTo(ty) => Some(*ty),
        ValueType::Of(ty) => match types.shape(*ty) {
            Shape::Ref(inside) => Some(*inside),
            Shape::Base | Shape::Void | Shape::Fun { .. } | Shape::Struct(_) => None,
        },
    }
}

/// The type of what a value points at, where that is known. Constant time.
pub fn target(types: &TypeTable, value: &Option<ValueType>) -> Option<TypeId>
    ensures { some_type types.now result ≡ rules.some_target (some_value_type types.now value.now) }
{
    match value {
        Some(value) => target_of(types, value),
        None => None,
    }
}

/// A pointer to what is in a place. Constant time.
pub fn address(shape: &ExprShape) -> Option<ValueType>
    ensures { (rows : List row.TypeRow) → some_value_type rows result
        ≡ rules.address (shape_in rows shape.now) }
{
    match shape {
        ExprShape::Place(Some(ty)) => Some(ValueType::PointerTo(*ty)),
        ExprShape::Place(None) => None,
        ExprShape::Value(_) => None,
    }
}

/// Whether a type is `void`. Constant time.
fn is_void(types: &TypeTable, ty: TypeId) -> bool
    ensures { result ≡ rules.is_void_type (type_of types.now ty) }
{
    match types.shape(ty) {
        Shape::Void => true,
        Shape::Base | Shape::Ref(_) | Shape::Fun { .. } | Shape::Struct(_) => false,
    }
}

/// Whether a value points to anything but `void`. Constant time.
pub(crate) fn points_to_some(types: &TypeTable, value: &ValueType) -> bool
    ensures { result ≡ rules.points_to_some (value_type types.now value.now) }
{
    match value {
        ValueType::PointerTo(ty) => !is_void(types, *ty),
        ValueType::Of(ty) => match types.shape(*ty) {
            Shape::Ref(inside) => !is_void(types, *inside),
            Shape::Base | Shape::Void | Shape::Fun { .. } | Shape::Struct(_) => false,
        },
    }
}

/// Whether a type is `void` without annotation words. Constant time.
fn is_plain_void(types: &TypeTable, ty: TypeId) -> bool
    ensures { result ≡ is_plain_void (type_of types.now ty) }
{
    match types.shape(ty) {
        Shape::Void => types.words(ty).is_empty(),
        Shape::Base | Shape::Ref(_) | Shape::Fun { .. } | Shape::Struct(_) => false,
    }
}

/// Whether a value is a `void *` without annotation words. Constant time.
#[tactic(auto, using(crate::proofs::ShapeValues::Pointers::plain_pointer, crate::proofs::ShapeValues::Pointers::plain_without, crate::proofs::ShapeValues::Pointers::plain_with))]
pub fn is_plain_void_pointer(types: &TypeTable, value: &Option<ValueType>) -> bool
    ensures { result ≡ rules.is_plain_void_pointer (some_value_type types.now value.now) }
{
    match value {
        Some(ValueType::PointerTo(ty)) => is_plain_void(types, *ty),
        Some(ValueType::Of(ty)) => match types.shape(*ty) {
            Shape::Ref(inside) => types.words(*ty).is_empty() && is_plain_void(types, *inside),
            Shape::Base | Shape::Void | Shape::Fun { .. } | Shape::Struct(_) => false,
        },
        None => false,
    }
}
