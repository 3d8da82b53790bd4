//! Whether the value of an operator is fresh, and the type of that of a condition.

ghost use Rattle.std.specs.Prelude.{◌≡◌, not, ◌&&◌};
ghost use Rattle.name_rules.specs.Values.{is_additive, cond_type};
ghost use Rattle.row_rules.specs.Starting as rules;
ghost use Rattle.name_rules.specs.ShapeSteps.State as states;
ghost use Rattle.name_rules.specs.ShapeSteps.Steps.{twice};
ghost use Rattle.expr_shapes.specs.ShapeStacks.Views.{state_in};
ghost use Rattle.expr_shapes.specs.ShapeValues.Views.{some_type, some_value_type};

use c_words::Punct;
use expr_shapes::shape_stacks::Stacks;
use expr_shapes::shape_values::{ValueType, is_pointer};
use qual_base::TypeId;
use type_table::TypeTable;

/// Whether a sign is `+` or `-`.
fn is_additive(sign: Punct) -> bool
    ensures { result ≡ is_additive sign }
{
    match sign {
        Punct::Plus => true,
        Punct::Minus => true,
        _ => false,
    }
}

/// Whether a value is known and a pointer. Constant time.
fn is_some_pointer(types: &TypeTable, value: &Option<ValueType>) -> bool
    ensures { result ≡ rules.is_some_pointer (some_value_type types.now value.now) }
{
    match value {
        Some(value) => is_pointer(types, value),
        None => false,
    }
}

/// Whether the value of a binary operator is fresh. Constant time.
pub(crate) fn is_fresh_binary(types: &TypeTable, stacks: &Stacks, sign: Punct) -> bool
    ensures { result ≡ rules.is_fresh_binary sign
        (rules.is_some_pointer (states.value_at 1 (state_in types.now stacks.now)))
        (rules.is_some_pointer (states.value_at 0 (state_in types.now stacks.now))) }
{
    if is_additive(sign) {
        let first = is_some_pointer(types, &stacks.value_at(types, 1));
        let second = is_some_pointer(types, &stacks.value_at(types, 0));
        first == second
    } else {
        true
    }
}

/// Whether the value of an operator before its operand is fresh.
pub(crate) fn is_fresh_prefix(sign: Punct) -> bool
    ensures { result ≡ rules.is_fresh_prefix sign }
{
    match sign {
        Punct::Plus => true,
        Punct::Minus => true,
        Punct::Tilde => true,
        Punct::Bang => true,
        _ => false,
    }
}

/// Whether the operand with so many above it is a zero. Constant time.
fn is_zero_at(types: &TypeTable, stacks: &Stacks, depth: usize) -> bool
    ensures { result ≡ states.is_zero_at depth (state_in types.now stacks.now) }
{
    let _ = types;
    stacks.is_zero_at(depth)
}

/// The type that was named with so many operands above it. Constant time.
pub(crate) fn type_at(types: &TypeTable, stacks: &Stacks, depth: usize) -> Option<TypeId>
    ensures { some_type types.now result ≡ states.type_at depth (state_in types.now stacks.now) }
{
    let _ = types;
    stacks.type_at(depth)
}

/// Whether the value of a condition is fresh: that of one with a zero as a branch is the other branch. Constant time.
pub(crate) fn is_fresh_condition(types: &TypeTable, stacks: &Stacks) -> bool
    ensures { result ≡ not (states.is_zero_at 1 (state_in types.now stacks.now))
        && not (states.is_zero_at 0 (state_in types.now stacks.now)) }
{
    let first = is_zero_at(types, stacks, 1);
    let last = is_zero_at(types, stacks, 0);
    !first && !last
}

/// The type of the value of a condition. Constant time.
pub(crate) fn condition_value(types: &TypeTable, stacks: &Stacks) -> Option<ValueType>
    ensures { some_value_type types.now result
        ≡ cond_type (states.is_zero_at 1 (state_in types.now stacks.now))
        (states.is_zero_at 0 (state_in types.now stacks.now))
        (states.value_at 1 (state_in types.now stacks.now))
        (states.value_at 0 (state_in types.now stacks.now)) }
{
    let first = stacks.value_at(types, 1);
    let second = stacks.value_at(types, 0);
    let first_is_zero = is_zero_at(types, stacks, 1);
    let last_is_zero = is_zero_at(types, stacks, 0);
    expr_shapes::shape_values::cond(types, first_is_zero, last_is_zero, &first, &second)
}

/// How many operands are above those under the innermost initialiser in braces. Constant time.
fn depth_below(types: &TypeTable, stacks: &Stacks) -> usize
    ensures { result ≡ states.depth_below (state_in types.now stacks.now) }
{
    let _ = types;
    stacks.depth_below()
}

/// The type of what is in the compound literal whose operands are on the stack. Constant time.
fn literal_type(types: &TypeTable, stacks: &Stacks) -> Option<TypeId>
    ensures { some_type types.now result
        ≡ states.type_of_operand (states.first_operand
        (states.operands_below (state_in types.now stacks.now))) }
{
    type_at(types, stacks, depth_below(types, stacks))
}

/// The type of a compound literal's skeleton: a place of what is in it. Constant time.
pub(crate) fn literal_place(types: &TypeTable, stacks: &Stacks) -> Option<ValueType>
    ensures { some_value_type types.now result
        ≡ rules.some_place (states.type_of_operand (states.first_operand
        (states.operands_below (state_in types.now stacks.now)))) }
{
    match literal_type(types, stacks) {
        Some(ty) => Some(ValueType::PointerTo(ty)),
        None => None,
    }
}

/// Twice a number.
fn twice(count: u32) -> usize
    ensures { result ≡ twice count }
{
    2 * count as usize
}

/// The value of the control of a selection of so many associations. Constant time.
pub(crate) fn control(types: &TypeTable, stacks: &Stacks, count: u32) -> Option<ValueType>
    ensures { some_value_type types.now result
        ≡ states.value_at (twice count) (state_in types.now stacks.now) }
{
    stacks.value_at(types, twice(count))
}
