//! Which ops of expressions are at fault, by the types of their operands.

ghost use Rattle.std.specs.Prelude.{◌≡◌, ◌&&◌, not, List};
ghost use Rattle.type_table.specs.declared.row.TypeRow as row;
ghost use Rattle.name_rules.specs.Values.{is_base_value, is_no_pointer};
ghost use Rattle.name_rules.specs.Checks.{wants_place, is_star};
ghost use Rattle.expr_shapes.specs.ShapeValues.Views.{shape_in};
ghost use Rattle.name_rules.specs.ShapeSteps.State as states;
ghost use Rattle.expr_shapes.specs.ShapeStacks.Views.{state_in};
ghost use Rattle.expr_shapes.specs.Types.{is_no_function, lacks_argument};

use crate::forms::named_value;
use crate::shape_stacks::Stacks;
use crate::shape_values::ExprShape;
use c_words::Punct;
use type_table::TypeTable;

/// Whether an expression is a place.
fn is_place(shape: &ExprShape) -> bool
    ensures { (rows : List row.TypeRow) → result ≡ (shape_in rows shape.now).is_place }
{
    match shape {
        ExprShape::Place(_) => true,
        ExprShape::Value(_) => false,
    }
}

/// Whether the operand with so many above it is no place, as the target of an assignment is to be. Constant time.
pub fn is_no_place(stacks: &Stacks, types: &TypeTable, depth: usize) -> bool
    ensures { result ≡ not (states.shape_at depth (state_in types.now stacks.now)).is_place }
{
    let _ = types;
    !is_place(&stacks.shape_at(depth))
}

/// Whether a sign wants a place behind it.
fn wants_place(sign: Punct) -> bool
    ensures { result ≡ wants_place sign }
{
    match sign {
        Punct::Ampersand => true,
        Punct::PlusPlus => true,
        Punct::MinusMinus => true,
        _ => false,
    }
}

/// Whether a sign is `*`.
fn is_star(sign: Punct) -> bool
    ensures { result ≡ is_star sign }
{
    match sign {
        Punct::Star => true,
        _ => false,
    }
}

/// Whether the operand of `&`, `++` or `--` before it is no place. Constant time.
pub fn prefix_has_no_place(stacks: &Stacks, types: &TypeTable, sign: Punct) -> bool
    ensures { result
        ≡ (wants_place sign && not (states.shape_at 0 (state_in types.now stacks.now)).is_place) }
{
    if wants_place(sign) {
        is_no_place(stacks, types, 0)
    } else {
        false
    }
}

/// Whether the operand of `*` is no pointer. Constant time.
pub fn prefix_has_no_pointer(stacks: &Stacks, types: &TypeTable, sign: Punct) -> bool
    ensures { result
        ≡ (is_star sign && is_no_pointer (states.value_at 0 (state_in types.now stacks.now))) }
{
    if is_star(sign) {
        has_no_pointer(stacks, types, 0)
    } else {
        false
    }
}

/// Whether the operand with so many above it is known and no pointer, as that before `->` is to be. Constant time.
pub fn has_no_pointer(stacks: &Stacks, types: &TypeTable, depth: usize) -> bool
    ensures { result ≡ is_no_pointer (states.value_at depth (state_in types.now stacks.now)) }
{
    let value = stacks.value_at(types, depth);
    crate::shape_values::is_no_pointer(types, &value)
}

/// Whether neither operand of `[ ]` is a pointer, nor in wider C the left one a vector. Constant time.
pub fn index_has_no_pointer(stacks: &Stacks, types: &TypeTable, wide: bool) -> bool
    ensures { result ≡ (is_no_pointer (states.value_at 1 (state_in types.now stacks.now))
        && is_no_pointer (states.value_at 0 (state_in types.now stacks.now))
        && not (wide && is_base_value (states.value_at 1 (state_in types.now stacks.now)))) }
{
    if wide && crate::shape_values::is_base(types, &stacks.value_at(types, 1)) {
        return false;
    }
    if has_no_pointer(stacks, types, 1) {
        has_no_pointer(stacks, types, 0)
    } else {
        false
    }
}

/// Whether what is called, under so many arguments, is known and no pointer to a function. Constant time.
pub fn calls_no_function(stacks: &Stacks, types: &TypeTable, count: u32) -> bool
    ensures { result ≡ is_no_function (states.value_at count (state_in types.now stacks.now)) }
{
    match stacks.value_at(types, count as usize) {
        Some(called) => !crate::shape_values::points_to_function(types, &called),
        None => false,
    }
}

/// Whether what is called takes another number of arguments than this. Constant time.
pub fn has_wrong_count(stacks: &Stacks, types: &TypeTable, count: u32) -> bool
    ensures { result
        ≡ lacks_argument (states.value_at count (state_in types.now stacks.now)) count }
{
    match stacks.value_at(types, count as usize) {
        Some(called) => !crate::shape_values::takes(types, &called, count),
        None => false,
    }
}

/// Whether what an index in an offset is applied to is known and no pointer. Constant time.
pub fn offset_has_no_pointer(stacks: &Stacks, types: &TypeTable) -> bool
    ensures { result ≡ is_no_pointer (states.type_at 1 (state_in types.now stacks.now)) }
{
    let value = named_value(stacks, types);
    crate::shape_values::is_no_pointer(types, &value)
}
