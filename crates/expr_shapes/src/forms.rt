//! Expressions with a type name or a block, and the GNU forms.

ghost use Rattle.std.specs.Prelude.{◌≡◌, ◌&&◌, ℕ, List, OnOk};
ghost use Rattle.type_table.specs.declared.row.TypeRow as row;
ghost use Rattle.name_rules.specs.Spellings.{Spelling};
ghost use Rattle.name_rules.specs.Scopes.{Names};
ghost use Rattle.expr_shapes.specs.ShapeValues.Views.{some_type, some_value_type};
ghost use Rattle.name_rules.specs.ShapeSteps.State as states;
ghost use Rattle.name_rules.specs.ShapeSteps.Steps as steps;
ghost use Rattle.expr_shapes.specs.ShapeStacks.Views.{state_in};
ghost use Rattle.expr_shapes.specs.Types.{ArePlain};
ghost use Rattle.tape_ops.specs.declared.form.FormOp.TheVariants as forms;
ghost use Rattle.name_rules.specs.Values.{some_target, is_plain_void_pointer};

use crate::plain::Plain;
use crate::shape_stacks::Stacks;
use crate::shape_values::{ExprShape, ValueType};
use qual_base::{NoMemory, TypeId};
use type_table::TypeTable;

/// The value of a type that was named.
fn value_of(ty: &Option<TypeId>) -> Option<ValueType>
    ensures { (rows : List row.TypeRow) → some_value_type rows result ≡ some_type rows ty.now }
{
    match ty {
        Some(ty) => Some(ValueType::Of(*ty)),
        None => None,
    }
}

/// A type that was named. Constant time but for growth.
pub fn named(stacks: &mut Stacks, ty: &Option<TypeId>) -> Result<(), NoMemory>
    ensures { OnOk result ((rows : List row.TypeRow)
        → state_in rows stacks.new
        ≡ states.operand_put 0 (states.named_type (some_type rows ty.now))
        (state_in rows stacks.old)) }
{
    stacks.put_type(0, ty)
}

/// Whether a cast of an operand is a zero, by its type and by whether the operand is one. Constant time.
fn is_zero_cast(types: &TypeTable, value: &Option<ValueType>, is_zero: bool) -> bool
    ensures { result ≡ (is_plain_void_pointer (some_value_type types.now value.now) && is_zero) }
{
    if is_zero {
        crate::shape_values::is_plain_void_pointer(types, value)
    } else {
        false
    }
}

/// The value of the type that was named under an operand. Constant time.
pub(crate) fn named_value(stacks: &Stacks, types: &TypeTable) -> Option<ValueType>
    ensures { some_value_type types.now result ≡ states.type_at 1 (state_in types.now stacks.now) }
{
    let _ = types;
    value_of(&stacks.type_at(1))
}

/// A cast. Constant time.
pub fn cast(stacks: &mut Stacks, types: &TypeTable) -> Result<(), NoMemory>
    ensures { OnOk result ((u : Spelling) (s : Names) (token last : ℕ)
        → state_in types.now stacks.new
        ≡ steps.form_step u s (state_in types.now stacks.old) (forms.Cast token last)) }
{
    let value = named_value(stacks, types);
    let is_zero = is_zero_cast(types, &value, stacks.is_zero_at(0));
    stacks.put(2, &ExprShape::Value(value), is_zero)
}

/// The end of a statement expression. Constant time.
pub fn statements(
    stacks: &mut Stacks,
    types: &TypeTable,
    plain: &Plain,
    has_value: bool,
) -> Result<(), NoMemory>
    requires { ArePlain types.now plain.now }
    ensures { OnOk result ((u : Spelling) (s : Names) (token : ℕ)
        → state_in types.now stacks.new
        ≡ steps.form_step u s (state_in types.now stacks.old) (forms.StmtExpr has_value token)) }
{
    if has_value {
        let value = stacks.value_at(types, 0);
        stacks.put(1, &ExprShape::Value(value), false)
    } else {
        stacks.put(0, &ExprShape::Value(Some(ValueType::Of(plain.void))), false)
    }
}

/// An argument of a list of them. Constant time.
pub fn va_arg(stacks: &mut Stacks) -> Result<(), NoMemory>
    ensures { OnOk result ((rows : List row.TypeRow) (u : Spelling) (s : Names) (token last : ℕ)
        → state_in rows stacks.new
        ≡ steps.form_step u s (state_in rows stacks.old) (forms.VaArg token last)) }
{
    let value = value_of(&stacks.type_at(0));
    stacks.put(2, &ExprShape::Value(value), false)
}

/// `va_start`, and `va_copy`. Constant time.
pub fn variadic(stacks: &mut Stacks, types: &TypeTable, plain: &Plain) -> Result<(), NoMemory>
    requires { ArePlain types.now plain.now }
    ensures { OnOk result ((u : Spelling) (s : Names) (token last : ℕ)
        → state_in types.now stacks.new
        ≡ steps.form_step u s (state_in types.now stacks.old) (forms.VaStart token last)) }
{
    let _ = types;
    stacks.put(2, &ExprShape::Value(Some(ValueType::Of(plain.void))), false)
}

/// A member in an offset, of which this type was found. Constant time.
pub fn offset_member(stacks: &mut Stacks, ty: &Option<TypeId>) -> Result<(), NoMemory>
    ensures { OnOk result ((rows : List row.TypeRow)
        → state_in rows stacks.new
        ≡ states.operand_put 1 (states.named_type (some_type rows ty.now))
        (state_in rows stacks.old)) }
{
    stacks.put_type(1, ty)
}

/// An index in an offset. Constant time.
pub fn offset_index(stacks: &mut Stacks, types: &TypeTable) -> Result<(), NoMemory>
    ensures { OnOk result ((u : Spelling) (s : Names) (token : ℕ)
        → state_in types.now stacks.new
        ≡ steps.form_step u s (state_in types.now stacks.old) (forms.OffsetIndex token)) }
{
    let ty = crate::shape_values::target(types, &value_of(&stacks.type_at(1)));
    stacks.put_type(2, &ty)
}

/// The end of an offset. Constant time.
pub fn offset(stacks: &mut Stacks, types: &TypeTable, plain: &Plain) -> Result<(), NoMemory>
    requires { ArePlain types.now plain.now }
    ensures { OnOk result ((u : Spelling) (s : Names) (token : ℕ)
        → state_in types.now stacks.new
        ≡ steps.form_step u s (state_in types.now stacks.old) (forms.Offset token)) }
{
    let _ = types;
    stacks.put(1, &ExprShape::Value(Some(ValueType::Of(plain.base))), false)
}
