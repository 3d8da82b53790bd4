//! Expressions with a type name or a block, and the GNU forms.

ghost use Rattle.std.specs.Prelude.{◌≡◌, ◌&&◌, ℕ, List, OnOk, option_map};
ghost use Rattle.type_table.specs.declared.row.TypeRow as row;
ghost use Rattle.type_table.specs.Rows.{type_of};
ghost use Rattle.tape_ops.specs.declared.form.FormOp.TheVariants as forms;
ghost use Rattle.name_rules.specs.Values.{is_plain_void_pointer};
ghost use Rattle.expr_shapes.specs.ShapeValues.Views.{some_value_type};
ghost use Rattle.row_rules.specs.Vals as vals;
ghost use Rattle.row_rules.specs.RowSteps.State as states;
ghost use Rattle.row_rules.specs.RowSteps.Steps as steps;
ghost use Rattle.skel_steps.specs.Stepping.{Steps, state_of};

use crate::operands::{put_own, put_value, value_at};
use crate::picks::{choose, select};
use crate::skel_stacks::Stacks;
use expr_shapes::shape_values::{ValueType, is_plain_void_pointer};
use qual_base::{NoMemory, TokenId, TypeId};
use row_world::Known;
use tape_ops::FormOp;
use type_table::TypeTable;

/// The value of a type that was named.
fn value_of(ty: &Option<TypeId>) -> Option<ValueType>
    ensures { (rows : List row.TypeRow) → some_value_type rows result
        ≡ option_map (type_of rows) ty.now }
{
    match ty {
        Some(ty) => Some(ValueType::Of(*ty)),
        None => None,
    }
}

/// Whether a type is that of a pointer to `void` without annotation words, and an operand a zero. Constant time.
fn is_zero_of(types: &TypeTable, ty: &Option<TypeId>, is_zero: bool) -> bool
    ensures { result ≡ (is_plain_void_pointer (option_map (type_of types.now) ty.now) && is_zero) }
{
    if is_zero {
        is_plain_void_pointer(types, &value_of(ty))
    } else {
        false
    }
}

/// Whether a cast is a zero, by its type and its operand. Constant time.
fn is_zero_cast(known: &Known, stacks: &Stacks) -> bool
    ensures { result ≡ (is_plain_void_pointer (states.type_at 1 (state_of known.now stacks.now))
        && states.is_zero_at 0 (state_of known.now stacks.now)) }
{
    is_zero_of(known.types, &stacks.type_at(1), stacks.is_zero_at(0))
}

/// A cast. Constant time.
fn cast(known: &Known, stacks: &mut Stacks, token: TokenId) -> Result<(), NoMemory>
    ensures { OnOk result ((last : ℕ) → Steps known.now
        (λ w st. steps.form_step w st (forms.Cast token last)) stacks.old stacks.new) }
{
    let is_zero = is_zero_cast(known, stacks);
    let own = known.own(token);
    put_value(stacks, 2, own, is_zero)
}

/// The end of a statement expression, by its last statement. Constant time.
fn statements(
    known: &Known,
    stacks: &mut Stacks,
    has_value: bool,
    token: TokenId,
) -> Result<(), NoMemory>
    ensures { OnOk result (Steps known.now
        (λ w st. steps.form_step w st (forms.StmtExpr has_value token)) stacks.old stacks.new) }
{
    if has_value {
        let value = value_at(known, stacks, 0);
        put_value(stacks, 1, value, false)
    } else {
        put_own(known, stacks, 0, token)
    }
}

/// What an expression with a type name or a block does. Constant time, and linear in the associations of a selection.
pub(crate) fn step_form(known: &Known, stacks: &mut Stacks, op: FormOp) -> Result<(), NoMemory>
    ensures { OnOk result
        (Steps known.now (λ w st. steps.form_step w st op) stacks.old stacks.new) }
{
    match op {
        FormOp::Cast { token, .. } => cast(known, stacks, token),
        FormOp::Sizeof { token } => put_own(known, stacks, 1, token),
        FormOp::StmtExpr { has_value, token } => statements(known, stacks, has_value, token),
        FormOp::VaArg { token, .. } => put_own(known, stacks, 2, token),
        FormOp::VaStart { token, .. } => put_own(known, stacks, 2, token),
        FormOp::VaCopy { token, .. } => put_own(known, stacks, 2, token),
        FormOp::OffsetMember { .. } => Ok(()),
        FormOp::OffsetIndex { .. } => {
            stacks.drop_operands(1);
            Ok(())
        }
        FormOp::Offset { token } => put_own(known, stacks, 1, token),
        FormOp::Compat { token } => put_own(known, stacks, 2, token),
        FormOp::Control => Ok(()),
        FormOp::NoType => stacks.put_type(0, &None),
        FormOp::Choose { token } => choose(known, stacks, token),
        FormOp::Generic { token, count } => select(known, stacks, token, count),
    }
}
