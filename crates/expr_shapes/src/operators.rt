//! Operators.

ghost use Rattle.std.specs.Prelude.{◌≡◌, ◌&&◌, ℕ, Bool, List, OnOk, if◌then◌else◌};
ghost use Rattle.type_table.specs.declared.row.TypeRow as row;
ghost use Rattle.name_rules.specs.Spellings.{Spelling};
ghost use Rattle.name_rules.specs.Scopes.{Names};
ghost use Rattle.name_rules.specs.Values.{a_place, cond_type, is_base_value, is_no_pointer};
ghost use Rattle.expr_shapes.specs.ShapeValues.Views.{some_type, some_value_type};
ghost use Rattle.name_rules.specs.ShapeSteps.State as states;
ghost use Rattle.name_rules.specs.ShapeSteps.Steps as steps;
ghost use Rattle.expr_shapes.specs.ShapeStacks.Views.{state_in};
ghost use Rattle.expr_shapes.specs.Types.{ArePlain};
ghost use Rattle.tape_ops.specs.declared.expression.ExprOp.TheVariants as exprs;
ghost use Rattle.tape_ops.specs.declared.form.FormOp.TheVariants as forms;
ghost use Rattle.c_words.specs.declared.kinds.Punct.{Punct};

use crate::plain::Plain;
use crate::shape_stacks::Stacks;
use crate::shape_values::{ExprShape, ValueType};
use c_words::Punct;
use qual_base::{NoMemory, TypeId};
use type_table::TypeTable;

/// The comma. Constant time.
pub fn comma(stacks: &mut Stacks, types: &TypeTable) -> Result<(), NoMemory>
    ensures { OnOk result ((u : Spelling) (s : Names) (token : ℕ)
        → state_in types.now stacks.new
        ≡ steps.expr_step u s (state_in types.now stacks.old) (exprs.Comma token)) }
{
    let value = stacks.value_at(types, 0);
    stacks.put(2, &ExprShape::Value(value), false)
}

/// An assignment. Constant time.
pub fn assign(stacks: &mut Stacks) -> Result<(), NoMemory>
    ensures { OnOk result
        ((rows : List row.TypeRow) (u : Spelling) (s : Names) (sign : Punct) (token first last : ℕ)
        → state_in rows stacks.new
        ≡ steps.expr_step u s (state_in rows stacks.old) (exprs.Assign sign token first last)) }
{
    let shape = crate::shape_values::assigned(&stacks.shape_at(1));
    stacks.put(2, &shape, false)
}

/// The type of the value of a condition. Constant time.
fn condition_value(stacks: &Stacks, types: &TypeTable) -> Option<ValueType>
    ensures { some_value_type types.now result
        ≡ cond_type (states.is_zero_at 1 (state_in types.now stacks.now))
        (states.is_zero_at 0 (state_in types.now stacks.now))
        (states.value_at 1 (state_in types.now stacks.now))
        (states.value_at 0 (state_in types.now stacks.now)) }
{
    let first = stacks.value_at(types, 1);
    let second = stacks.value_at(types, 0);
    let first_is_zero = stacks.is_zero_at(1);
    let last_is_zero = stacks.is_zero_at(0);
    crate::shape_values::cond(types, first_is_zero, last_is_zero, &first, &second)
}

/// How many operands a condition has.
fn operand_count(has_middle: bool) -> usize
    ensures { result ≡ if has_middle then 3 else 2 }
{
    if has_middle { 3 } else { 2 }
}

/// `?:`, with or without its middle. Constant time.
pub fn condition(stacks: &mut Stacks, types: &TypeTable, has_middle: bool) -> Result<(), NoMemory>
    ensures { OnOk result ((u : Spelling) (s : Names) (token first last : ℕ)
        → state_in types.now stacks.new
        ≡ steps.expr_step u s (state_in types.now stacks.old)
        (exprs.Cond has_middle token first last)) }
{
    let value = condition_value(stacks, types);
    let count = operand_count(has_middle);
    stacks.put(count, &ExprShape::Value(value), false)
}

/// A binary operator. Constant time.
pub fn binary(
    stacks: &mut Stacks,
    types: &TypeTable,
    plain: &Plain,
    sign: Punct,
) -> Result<(), NoMemory>
    requires { ArePlain types.now plain.now }
    ensures { OnOk result ((u : Spelling) (s : Names) (token first last : ℕ)
        → state_in types.now stacks.new
        ≡ steps.expr_step u s (state_in types.now stacks.old)
        (exprs.Binary sign token first last)) }
{
    let first = stacks.value_at(types, 1);
    let second = stacks.value_at(types, 0);
    let value = crate::shape_values::binary(types, plain.base, sign, &first, &second);
    stacks.put(2, &ExprShape::Value(value), false)
}

/// An operator before its operand. Constant time.
pub fn prefix(
    stacks: &mut Stacks,
    types: &TypeTable,
    plain: &Plain,
    sign: Punct,
) -> Result<(), NoMemory>
    requires { ArePlain types.now plain.now }
    ensures { OnOk result ((u : Spelling) (s : Names) (token last : ℕ) (aims : Bool)
        → state_in types.now stacks.new
        ≡ steps.expr_step u s (state_in types.now stacks.old) (exprs.Prefix sign token last aims)) }
{
    let shape = crate::shape_values::prefix(types, plain.base, sign, &stacks.shape_at(0));
    stacks.put(1, &shape, false)
}

/// `++` or `--` behind its operand. Constant time.
pub fn post(stacks: &mut Stacks, types: &TypeTable) -> Result<(), NoMemory>
    ensures { OnOk result ((u : Spelling) (s : Names) (sign : Punct) (token first : ℕ)
        → state_in types.now stacks.new
        ≡ steps.expr_step u s (state_in types.now stacks.old) (exprs.Post sign token first)) }
{
    let value = stacks.value_at(types, 0);
    stacks.put(1, &ExprShape::Value(value), false)
}

/// Whether `[ ]` of wider C takes an element of a vector. Constant time.
fn is_vector_index(
    types: &TypeTable,
    wide: bool,
    first: &Option<ValueType>,
    second: &Option<ValueType>,
) -> bool
    ensures { result ≡ (wide && (is_base_value (some_value_type types.now first.now)
        && is_no_pointer (some_value_type types.now second.now))) }
{
    wide && crate::shape_values::is_base(types, first)
        && crate::shape_values::is_no_pointer(types, second)
}

/// `[ ]`; in wider C it may be of a vector, whose element is as it is. Constant time.
pub fn index(stacks: &mut Stacks, types: &TypeTable, wide: bool) -> Result<(), NoMemory>
    ensures { OnOk result ((u : Spelling) (s : Names) (token first last : ℕ) (aims : Bool)
        → wide ≡ u.wide → state_in types.now stacks.new
        ≡ steps.expr_step u s (state_in types.now stacks.old) (exprs.Index token first last aims)) }
{
    let first = stacks.value_at(types, 1);
    let second = stacks.value_at(types, 0);
    if is_vector_index(types, wide, &first, &second) {
        let shape = stacks.shape_at(1);
        return stacks.put(2, &shape, false);
    }
    let ty = crate::shape_values::index(types, &first, &second);
    stacks.put(2, &ExprShape::Place(ty), false)
}

/// The end of a call with so many arguments. Constant time for each of them.
pub fn call(stacks: &mut Stacks, types: &TypeTable, count: u32) -> Result<(), NoMemory>
    ensures { OnOk result ((u : Spelling) (s : Names) (token : ℕ)
        → state_in types.now stacks.new
        ≡ steps.expr_step u s (state_in types.now stacks.old) (exprs.Call token count)) }
{
    let called = stacks.value_at(types, count as usize);
    let ty = crate::shape_values::result(types, &called);
    let value = match ty {
        Some(ty) => Some(ValueType::Of(ty)),
        None => None,
    };
    stacks.put(count as usize + 1, &ExprShape::Value(value), false)
}

/// What a pointer before `->` points at. Constant time.
pub fn arrow(stacks: &mut Stacks, types: &TypeTable) -> Result<(), NoMemory>
    ensures { OnOk result ((u : Spelling) (s : Names) (token first last : ℕ) (aims : Bool)
        → state_in types.now stacks.new
        ≡ steps.expr_step u s (state_in types.now stacks.old) (exprs.Arrow token first last aims)) }
{
    let value = stacks.value_at(types, 0);
    let ty = crate::shape_values::target(types, &value);
    stacks.put(1, &ExprShape::Place(ty), false)
}

/// A member, of which this type was found. Constant time.
pub fn member(stacks: &mut Stacks, ty: &Option<TypeId>) -> Result<(), NoMemory>
    ensures { OnOk result ((rows : List row.TypeRow)
        → state_in rows stacks.new
        ≡ states.put 1 (a_place (some_type rows ty.now)) (state_in rows stacks.old)) }
{
    stacks.put(1, &ExprShape::Place(*ty), false)
}

/// The end of `sizeof` or `alignof`. Constant time.
pub fn sizeof(stacks: &mut Stacks, types: &TypeTable, plain: &Plain) -> Result<(), NoMemory>
    requires { ArePlain types.now plain.now }
    ensures { OnOk result ((u : Spelling) (s : Names) (token : ℕ)
        → state_in types.now stacks.new
        ≡ steps.form_step u s (state_in types.now stacks.old) (forms.Sizeof token)) }
{
    let _ = types;
    stacks.put(1, &ExprShape::Value(Some(ValueType::Of(plain.base))), false)
}
