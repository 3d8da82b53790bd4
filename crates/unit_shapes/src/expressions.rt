//! What operands and operators do to the stacks.

ghost use Rattle.std.specs.Prelude.{◌≡◌, ℕ, Bool, OnOk};
ghost use Rattle.name_rules.specs.ShapeSteps.Steps as steps;
ghost use Rattle.expr_shapes.specs.ShapeStacks.Views.{state_in};
ghost use Rattle.name_tables.specs.UnitSpelling.Spelled.{spelling_of};
ghost use Rattle.unit_shapes.specs.Views.{names_in, AreImplicit};
ghost use Rattle.tape_ops.specs.declared.expression.ExprOp.TheVariants as exprs;
ghost use Rattle.tape_ops.specs.declared.form.FormOp.TheVariants as forms;

use crate::members::{member_of_type, member_type};
use crate::uses::{ImplicitTypes, shape_of_use};
use expr_shapes as shapes;
use expr_shapes::shape_stacks::Stacks;
use expr_shapes::shape_values::ValueType;
use name_state::unit_names::Names;
use name_tables::unit_spelling::Spelling;
use qual_base::{NameId, NoMemory, TokenId};
use tape_ops::{ExprOp, FormOp};
use type_table::TypeTable;

/// A name. Constant time but for growth.
fn name(
    stacks: &mut Stacks,
    spelling: &Spelling,
    names: &Names,
    types: &TypeTable,
    implicit: &ImplicitTypes,
    token: TokenId,
) -> Result<(), NoMemory>
    requires { AreImplicit types.now implicit.now }
    ensures { OnOk result ((is_called : Bool) (name : ℕ)
        → state_in types.now stacks.new
        ≡ steps.expr_step (spelling_of spelling.now) (names_in types.now names.now)
        (state_in types.now stacks.old) (exprs.Name is_called token name)) }
{
    let at = spelling.place(token);
    let shape = shape_of_use(names, implicit, types, &at);
    shapes::name(stacks, &shape)
}

/// A member, behind `.` or `->`. Constant time.
fn dot(
    stacks: &mut Stacks,
    spelling: &Spelling,
    names: &Names,
    types: &TypeTable,
    name: NameId,
) -> Result<(), NoMemory>
    ensures { OnOk result ((token member : ℕ)
        → state_in types.now stacks.new
        ≡ steps.expr_step (spelling_of spelling.now) (names_in types.now names.now)
        (state_in types.now stacks.old) (exprs.Dot token member name)) }
{
    let value = stacks.value_at(types, 0);
    let ty = member_type(names, types, &value, spelling.key(name));
    shapes::member(stacks, &ty)
}

/// A member in an offset. Constant time.
fn offset_member(
    stacks: &mut Stacks,
    spelling: &Spelling,
    names: &Names,
    types: &TypeTable,
    name: NameId,
) -> Result<(), NoMemory>
    ensures { OnOk result ((token : ℕ)
        → state_in types.now stacks.new
        ≡ steps.form_step (spelling_of spelling.now) (names_in types.now names.now)
        (state_in types.now stacks.old) (forms.OffsetMember token name)) }
{
    let named = stacks.type_at(0);
    let ty = member_of_type(names, types, &named, spelling.key(name));
    shapes::offset_member(stacks, &ty)
}

/// What an operand or operator does. Constant time for each operand that it takes.
pub(crate) fn expression(
    stacks: &mut Stacks,
    spelling: &Spelling,
    names: &Names,
    types: &TypeTable,
    implicit: &ImplicitTypes,
    op: ExprOp,
) -> Result<(), NoMemory>
    requires { AreImplicit types.now implicit.now }
    ensures { OnOk result (state_in types.now stacks.new
        ≡ steps.expr_step (spelling_of spelling.now) (names_in types.now names.now)
        (state_in types.now stacks.old) op) }
{
    let plain = &implicit.plain;
    match op {
        ExprOp::Name { token, .. } => name(stacks, spelling, names, types, implicit, token),
        ExprOp::Number { token } => {
            shapes::number(stacks, types, plain, spelling.is_naught(token))
        }
        ExprOp::Char { .. } => shapes::plain_operand(stacks, types, plain),
        ExprOp::Text { .. } => shapes::text(stacks, types, plain),
        ExprOp::Paren { .. } => Ok(()),
        ExprOp::Ext { .. } => shapes::extension(stacks),
        ExprOp::Comma { .. } => shapes::comma(stacks, types),
        ExprOp::Assign { .. } => shapes::assign(stacks),
        ExprOp::Cond { has_middle, .. } => shapes::condition(stacks, types, has_middle),
        ExprOp::Binary { sign, .. } => shapes::binary(stacks, types, plain, sign),
        ExprOp::Prefix { sign, .. } => shapes::prefix(stacks, types, plain, sign),
        ExprOp::Post { .. } => shapes::post(stacks, types),
        ExprOp::Index { .. } => shapes::index(stacks, types, spelling.wide),
        ExprOp::Arg { .. } => Ok(()),
        ExprOp::Call { count, .. } => shapes::call(stacks, types, count),
        ExprOp::Arrow { .. } => shapes::arrow(stacks, types),
        ExprOp::Dot { name, .. } => dot(stacks, spelling, names, types, name),
        ExprOp::Label { .. } => shapes::label(stacks, types, plain),
    }
}

/// What an expression with a type name or a block does. Constant time.
pub(crate) fn form(
    stacks: &mut Stacks,
    spelling: &Spelling,
    names: &Names,
    types: &TypeTable,
    implicit: &ImplicitTypes,
    op: FormOp,
) -> Result<(), NoMemory>
    requires { AreImplicit types.now implicit.now }
    ensures { OnOk result (state_in types.now stacks.new
        ≡ steps.form_step (spelling_of spelling.now) (names_in types.now names.now)
        (state_in types.now stacks.old) op) }
{
    let plain = &implicit.plain;
    match op {
        FormOp::Cast { .. } => shapes::cast(stacks, types),
        FormOp::Sizeof { .. } => shapes::sizeof(stacks, types, plain),
        FormOp::StmtExpr { has_value, .. } => shapes::statements(stacks, types, plain, has_value),
        FormOp::VaArg { .. } => shapes::va_arg(stacks),
        FormOp::VaStart { .. } => shapes::variadic(stacks, types, plain),
        FormOp::VaCopy { .. } => shapes::variadic(stacks, types, plain),
        FormOp::OffsetMember { name, .. } => offset_member(stacks, spelling, names, types, name),
        FormOp::OffsetIndex { .. } => shapes::offset_index(stacks, types),
        FormOp::Offset { .. } => shapes::offset(stacks, types, plain),
        FormOp::Compat { .. } => shapes::compat(stacks, types, plain),
        FormOp::Control => Ok(()),
        FormOp::NoType => shapes::no_type(stacks),
        FormOp::Choose { .. } => shapes::choose(stacks, types),
        FormOp::Generic { count, .. } => shapes::select(stacks, types, count),
    }
}
