//! What is known of an expression.

use qual_base::TypeId;

/// The type of a value: one of a table, or a pointer to one, without annotation words.
#[derive(Clone, Copy, PartialEq, Eq, Debug, Drop)]
pub enum ValueType {
    Of(TypeId),
    PointerTo(TypeId),
}

/// An expression: a place with the type of what is in it, or a value with its own; none behind a fault.
#[derive(Clone, Copy, PartialEq, Eq, Debug, Drop)]
pub enum ExprShape {
    Place(Option<TypeId>),
    Value(Option<ValueType>),
}
