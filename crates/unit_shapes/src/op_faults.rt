//! The faults of each op of a tape.

ghost use Rattle.std.specs.Prelude.{◌≡◌, List};
ghost use Rattle.type_table.specs.declared.row.TypeRow as row;
ghost use Rattle.name_rules.specs.Spellings.{place};
ghost use Rattle.name_rules.specs.Checks.{prefix_faults, call_faults, member_faults};
ghost use Rattle.expr_shapes.specs.ShapeValues.Views.{some_type, some_value_type};
ghost use Rattle.name_rules.specs.ShapeSteps.State as states;
ghost use Rattle.name_rules.specs.ShapeSteps.OpFaults as op_faults;
ghost use Rattle.expr_shapes.specs.ShapeStacks.Views.{state_in};
ghost use Rattle.name_tables.specs.UnitSpelling.Spelled.{spelling_of};
ghost use Rattle.unit_shapes.specs.Faults.{some_fault_of, keep};
ghost use Rattle.unit_shapes.specs.Views.{names_in};

use crate::fault::{Fault, Rule, note};
use crate::members::lacks_member;
use crate::targets::designated;
use c_words::Punct;
use expr_shapes as shapes;
use expr_shapes::shape_stacks::Stacks;
use expr_shapes::shape_values::{ValueType, is_no_pointer};
use name_state::unit_names::Names;
use name_tables::unit_spelling::Spelling;
use qual_base::{NameId, TokenId, TypeId};
use tape_ops::{ExprOp, FormOp, InitOp, Op};
use type_table::TypeTable;

/// The faults of an operator before its operand. Constant time.
#[tactic(auto, using(crate::proofs::Keeping::keep_append))]
fn prefix(
    best: &mut Option<Fault>,
    stacks: &Stacks,
    spelling: &Spelling,
    types: &TypeTable,
    sign: Punct,
    token: TokenId,
)
    ensures { some_fault_of best.new ≡ keep (some_fault_of best.old)
        (prefix_faults (place (spelling_of spelling.now) token) sign
        (states.shape_at 0 (state_in types.now stacks.now))) }
{
    let at = spelling.place(token);
    let has_no_place = shapes::prefix_has_no_place(stacks, types, sign);
    note(best, has_no_place, &at, Rule::NotPlace);
    let has_no_pointer = shapes::prefix_has_no_pointer(stacks, types, sign);
    note(best, has_no_pointer, &at, Rule::NotPointer);
}

/// The faults of a call. Constant time.
#[tactic(auto, using(crate::proofs::Keeping::keep_append, crate::proofs::Calling::calls_are))]
fn call(
    best: &mut Option<Fault>,
    stacks: &Stacks,
    spelling: &Spelling,
    types: &TypeTable,
    token: TokenId,
    count: u32,
)
    ensures { some_fault_of best.new ≡ keep (some_fault_of best.old)
        (call_faults (place (spelling_of spelling.now) token)
        (states.value_at count (state_in types.now stacks.now)) count) }
{
    let at = spelling.place(token);
    let calls_no_function = shapes::calls_no_function(stacks, types, count);
    note(best, calls_no_function, &at, Rule::NotFunction);
    let has_wrong_count = shapes::has_wrong_count(stacks, types, count);
    note(best, has_wrong_count, &at, Rule::ArgCount);
}

/// The fault of a member of a value. Constant time.
fn member_of_value(
    best: &mut Option<Fault>,
    spelling: &Spelling,
    names: &Names,
    types: &TypeTable,
    value: &Option<ValueType>,
    token: TokenId,
    name: NameId,
)
    ensures { some_fault_of best.new ≡ keep (some_fault_of best.old)
        (member_faults (spelling_of spelling.now) (names_in types.now names.now)
        (some_value_type types.now value.now) token name) }
{
    let lacks = lacks_member(names, types, value, spelling.key(name));
    note(best, lacks, &spelling.place(token), Rule::NoMember);
}

/// The value of what has a type.
fn value_of(ty: &Option<TypeId>) -> Option<ValueType>
    ensures { (rows : List row.TypeRow) → some_value_type rows result ≡ some_type rows ty.now }
{
    match ty {
        Some(ty) => Some(ValueType::Of(*ty)),
        None => None,
    }
}

/// The faults of an operand or operator. Constant time.
fn expression(
    best: &mut Option<Fault>,
    stacks: &Stacks,
    spelling: &Spelling,
    names: &Names,
    types: &TypeTable,
    op: ExprOp,
)
    ensures { some_fault_of best.new ≡ keep (some_fault_of best.old)
        (op_faults.expr_op_faults (spelling_of spelling.now) (names_in types.now names.now)
        (state_in types.now stacks.now) op) }
{
    match op {
        ExprOp::Assign { token, .. } => {
            let fails = shapes::is_no_place(stacks, types, 1);
            note(best, fails, &spelling.place(token), Rule::NotPlace)
        }
        ExprOp::Prefix { sign, token, .. } => prefix(best, stacks, spelling, types, sign, token),
        ExprOp::Post { token, .. } => {
            let fails = shapes::is_no_place(stacks, types, 0);
            note(best, fails, &spelling.place(token), Rule::NotPlace)
        }
        ExprOp::Index { token, .. } => {
            let fails = shapes::index_has_no_pointer(stacks, types, spelling.wide);
            note(best, fails, &spelling.place(token), Rule::NotPointer)
        }
        ExprOp::Call { token, count } => call(best, stacks, spelling, types, token, count),
        ExprOp::Arrow { token, .. } => {
            let fails = shapes::has_no_pointer(stacks, types, 0);
            note(best, fails, &spelling.place(token), Rule::NotPointer)
        }
        ExprOp::Dot { member, name, .. } => {
            let value = stacks.value_at(types, 0);
            member_of_value(best, spelling, names, types, &value, member, name)
        }
        ExprOp::Name { .. }
        | ExprOp::Number { .. }
        | ExprOp::Char { .. }
        | ExprOp::Text { .. }
        | ExprOp::Paren { .. }
        | ExprOp::Ext { .. }
        | ExprOp::Comma { .. }
        | ExprOp::Cond { .. }
        | ExprOp::Binary { .. }
        | ExprOp::Arg { .. }
        | ExprOp::Label { .. } => {}
    }
}

/// The faults of an expression with a type name or a block. Constant time.
fn form(
    best: &mut Option<Fault>,
    stacks: &Stacks,
    spelling: &Spelling,
    names: &Names,
    types: &TypeTable,
    op: FormOp,
)
    ensures { some_fault_of best.new ≡ keep (some_fault_of best.old)
        (op_faults.form_op_faults (spelling_of spelling.now) (names_in types.now names.now)
        (state_in types.now stacks.now) op) }
{
    match op {
        FormOp::OffsetMember { token, name } => {
            let value = value_of(&stacks.type_at(0));
            member_of_value(best, spelling, names, types, &value, token, name)
        }
        FormOp::OffsetIndex { token } => {
            let fails = shapes::offset_has_no_pointer(stacks, types);
            note(best, fails, &spelling.place(token), Rule::NotPointer)
        }
        FormOp::Cast { .. }
        | FormOp::Sizeof { .. }
        | FormOp::StmtExpr { .. }
        | FormOp::VaArg { .. }
        | FormOp::VaStart { .. }
        | FormOp::VaCopy { .. }
        | FormOp::Offset { .. }
        | FormOp::Compat { .. }
        | FormOp::Control
        | FormOp::NoType
        | FormOp::Choose { .. }
        | FormOp::Generic { .. } => {}
    }
}

/// The faults of a part of an initialiser. Constant time.
fn initialiser(
    best: &mut Option<Fault>,
    stacks: &Stacks,
    spelling: &Spelling,
    names: &Names,
    types: &TypeTable,
    op: InitOp,
)
    ensures { some_fault_of best.new ≡ keep (some_fault_of best.old)
        (op_faults.init_op_faults (spelling_of spelling.now) (names_in types.now names.now)
        (state_in types.now stacks.now) op) }
{
    match op {
        InitOp::Member { token, name } => {
            let value = value_of(&designated(&stacks.braces()));
            member_of_value(best, spelling, names, types, &value, token, name)
        }
        InitOp::Index { token } => {
            let value = value_of(&designated(&stacks.braces()));
            let fails = is_no_pointer(types, &value);
            note(best, fails, &spelling.place(token), Rule::NotPointer)
        }
        InitOp::Value { .. }
        | InitOp::Begin
        | InitOp::Rule
        | InitOp::Literal { .. }
        | InitOp::ListBegin
        | InitOp::Leaf { .. }
        | InitOp::ListEnd
        | InitOp::End
        | InitOp::LiteralEnd => {}
    }
}

/// Keeps the earliest one of a fault that is known and of those of an op. Constant time.
pub(crate) fn note_faults(
    best: &mut Option<Fault>,
    stacks: &Stacks,
    spelling: &Spelling,
    names: &Names,
    types: &TypeTable,
    op: Op,
)
    ensures { some_fault_of best.new ≡ keep (some_fault_of best.old)
        (op_faults.op_faults (spelling_of spelling.now) (names_in types.now names.now)
        (state_in types.now stacks.now) op) }
{
    match op {
        Op::Expr(op) => expression(best, stacks, spelling, names, types, op),
        Op::Form(op) => form(best, stacks, spelling, names, types, op),
        Op::Init(op) => initialiser(best, stacks, spelling, names, types, op),
        Op::Spec(_) | Op::Declr(_) | Op::Stmt(_) => {}
    }
}
