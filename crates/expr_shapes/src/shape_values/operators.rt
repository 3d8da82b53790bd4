//! What operators make of the types of their operands.

ghost use Rattle.std.specs.Prelude.{◌≡◌, List, []};
ghost use Rattle.type_table.specs.declared.row.TypeRow as row;
ghost use Rattle.type_table.specs.Types.{base};
ghost use Rattle.type_table.specs.Rows.{type_of};
ghost use Rattle.name_rules.specs.Values as rules;
ghost use Rattle.name_rules.specs.Uses as uses;
ghost use Rattle.expr_shapes.specs.ShapeValues.Views.{value_type, some_value_type, some_type, shape_in};

use crate::shape_values::reading::{address, is_pointer, points_to_some, target, value};
use crate::shape_values::shape::{ExprShape, ValueType};
use c_words::Punct;
use qual_base::TypeId;
use type_table::TypeTable;

/// Whether a sign is `+` or `-`.
fn is_additive(sign: Punct) -> bool
    ensures { result ≡ rules.is_additive sign }
{
    match sign {
        Punct::Plus => true,
        Punct::Minus => true,
        _ => false,
    }
}

/// Of `+` and `-`; `plain` is the base type without words. Constant time.
fn sum(
    types: &TypeTable,
    plain: TypeId,
    a: &Option<ValueType>,
    b: &Option<ValueType>,
) -> Option<ValueType>
    requires { type_of types.now plain ≡ base [] }
    ensures { some_value_type types.now result
        ≡ rules.sum_type (some_value_type types.now a.now) (some_value_type types.now b.now) }
{
    let Some(one) = a else {
        return None;
    };
    let Some(other) = b else {
        return None;
    };
    if is_pointer(types, one) {
        if is_pointer(types, other) {
            Some(ValueType::Of(plain))
        } else {
            *a
        }
    } else if is_pointer(types, other) {
        *b
    } else {
        Some(ValueType::Of(plain))
    }
}

/// Of a binary operator; `plain` is the base type without words. Constant time.
pub fn binary(
    types: &TypeTable,
    plain: TypeId,
    sign: Punct,
    a: &Option<ValueType>,
    b: &Option<ValueType>,
) -> Option<ValueType>
    requires { type_of types.now plain ≡ base [] }
    ensures { some_value_type types.now result
        ≡ rules.binary_type sign (some_value_type types.now a.now)
        (some_value_type types.now b.now) }
{
    if is_additive(sign) {
        sum(types, plain, a, b)
    } else {
        Some(ValueType::Of(plain))
    }
}

/// Of a condition with no zero in its branches, the first of which points to nothing but `void`. Constant time.
fn second_branch(types: &TypeTable, a: &ValueType, b: &Option<ValueType>) -> Option<ValueType>
    ensures { some_value_type types.now result
        ≡ rules.second_branch (value_type types.now a.now) (some_value_type types.now b.now) }
{
    let Some(other) = b else {
        return None;
    };
    if points_to_some(types, other) {
        *b
    } else if is_pointer(types, a) {
        Some(*a)
    } else if is_pointer(types, other) {
        *b
    } else {
        Some(*a)
    }
}

/// Of a condition with no zero in its branches. Constant time.
fn branches(types: &TypeTable, a: &Option<ValueType>, b: &Option<ValueType>) -> Option<ValueType>
    ensures { some_value_type types.now result
        ≡ rules.branches_type (some_value_type types.now a.now) (some_value_type types.now b.now) }
{
    let Some(one) = a else {
        return None;
    };
    if points_to_some(types, one) {
        *a
    } else {
        second_branch(types, one, b)
    }
}

/// Of a condition, by which of its branches is a zero. Constant time.
pub fn cond(
    types: &TypeTable,
    first_is_zero: bool,
    last_is_zero: bool,
    a: &Option<ValueType>,
    b: &Option<ValueType>,
) -> Option<ValueType>
    ensures { some_value_type types.now result
        ≡ rules.cond_type first_is_zero last_is_zero (some_value_type types.now a.now)
        (some_value_type types.now b.now) }
{
    if last_is_zero {
        *a
    } else if first_is_zero {
        *b
    } else {
        branches(types, a, b)
    }
}

/// Of `[ ]`: what is in the place that it gives. Constant time.
pub fn index(types: &TypeTable, a: &Option<ValueType>, b: &Option<ValueType>) -> Option<TypeId>
    ensures { some_type types.now result
        ≡ rules.index_type (some_value_type types.now a.now) (some_value_type types.now b.now) }
{
    let Some(one) = a else {
        return None;
    };
    if is_pointer(types, one) {
        target(types, a)
    } else {
        target(types, b)
    }
}

/// Of an operator before its operand; `plain` is the base type without words. Constant time.
pub fn prefix(types: &TypeTable, plain: TypeId, sign: Punct, operand: &ExprShape) -> ExprShape
    requires { type_of types.now plain ≡ base [] }
    ensures { shape_in types.now result ≡ uses.prefix_shape sign (shape_in types.now operand.now) }
{
    match sign {
        Punct::Ampersand => ExprShape::Value(address(operand)),
        Punct::Star => ExprShape::Place(target(types, &value(types, operand))),
        Punct::PlusPlus => ExprShape::Value(value(types, operand)),
        Punct::MinusMinus => ExprShape::Value(value(types, operand)),
        _ => ExprShape::Value(Some(ValueType::Of(plain))),
    }
}

/// Of an assignment, by its target. Constant time.
pub fn assigned(left: &ExprShape) -> ExprShape
    ensures { (rows : List row.TypeRow) → shape_in rows result
        ≡ uses.assigned_shape (shape_in rows left.now) }
{
    match left {
        ExprShape::Place(Some(ty)) => ExprShape::Value(Some(ValueType::Of(*ty))),
        ExprShape::Place(None) => ExprShape::Value(None),
        ExprShape::Value(_) => ExprShape::Value(None),
    }
}
