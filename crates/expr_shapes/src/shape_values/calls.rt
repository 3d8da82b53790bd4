//! Calls: what is called, with how many arguments, and what it gives.

ghost use Rattle.std.specs.Prelude.{◌≡◌};
ghost use Rattle.type_table.specs.Rows.{type_of};
ghost use Rattle.name_rules.specs.Pieces.{is_function};
ghost use Rattle.name_rules.specs.Values as rules;
ghost use Rattle.expr_shapes.specs.ShapeValues.Views.{value_type, some_value_type, some_type, result_of, takes_so_many};

use crate::shape_values::reading::target_of;
use crate::shape_values::shape::ValueType;
use qual_base::TypeId;
use type_table::{Shape, TypeTable};

/// Whether a type is a function's. Constant time.
fn is_function(types: &TypeTable, ty: TypeId) -> bool
    ensures { result ≡ is_function (type_of types.now ty) }
{
    match types.shape(ty) {
        Shape::Fun { .. } => true,
        Shape::Base | Shape::Void | Shape::Ref(_) | Shape::Struct(_) => false,
    }
}

/// Whether a value is a pointer to a function. Constant time.
#[tactic(auto, using(crate::proofs::ShapeValues::Pointers::function_pointed, crate::proofs::ShapeValues::Pointers::no_function))]
pub fn points_to_function(types: &TypeTable, value: &ValueType) -> bool
    ensures { result ≡ rules.points_to_function (value_type types.now value.now) }
{
    match target_of(types, value) {
        Some(ty) => is_function(types, ty),
        None => false,
    }
}

/// What a function gives; no other type gives anything. Constant time.
fn result_of(types: &TypeTable, ty: TypeId) -> Option<TypeId>
    ensures { some_type types.now result ≡ result_of (type_of types.now ty) }
{
    match types.shape(ty) {
        Shape::Fun { result: back, .. } => Some(*back),
        Shape::Base | Shape::Void | Shape::Ref(_) | Shape::Struct(_) => None,
    }
}

/// What a call gives, by the type of what is called. Constant time.
#[tactic(auto, using(crate::proofs::ShapeValues::Pointers::result_pointed, crate::proofs::ShapeValues::Pointers::no_result))]
pub fn result(types: &TypeTable, called: &Option<ValueType>) -> Option<TypeId>
    ensures { some_type types.now result
        ≡ rules.some_result_type (some_value_type types.now called.now) }
{
    let Some(value) = called else {
        return None;
    };
    match target_of(types, value) {
        Some(ty) => result_of(types, ty),
        None => None,
    }
}

/// Whether a function takes so many arguments, which all that is no function does. Constant time.
#[tactic(auto, using(crate::proofs::ShapeValues::Pointers::so_many))]
fn takes_so_many(types: &TypeTable, ty: TypeId, count: u32) -> bool
    ensures { result ≡ takes_so_many (type_of types.now ty) count }
{
    match types.shape(ty) {
        Shape::Fun {
            params,
            ellipsis,
            ..
        } => {
            if *ellipsis {
                params.len() <= count as usize
            } else {
                params.len() == count as usize
            }
        }
        Shape::Base | Shape::Void | Shape::Ref(_) | Shape::Struct(_) => true,
    }
}

/// Whether what is called takes so many arguments, which all that is no pointer to a function does. Constant time.
#[tactic(auto, using(crate::proofs::ShapeValues::Pointers::takes_pointed, crate::proofs::ShapeValues::Pointers::takes_other))]
pub fn takes(types: &TypeTable, called: &ValueType, count: u32) -> bool
    ensures { result ≡ rules.takes (value_type types.now called.now) count }
{
    match target_of(types, called) {
        Some(ty) => takes_so_many(types, ty, count),
        None => true,
    }
}
