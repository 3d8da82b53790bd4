//! What begins at operands and operators.

ghost use Rattle.std.specs.Prelude.{◌≡◌, not, ◌&&◌, [], List};
ghost use Rattle.type_table.specs.Types.{base, void};
ghost use Rattle.row_rules.specs.Starting as rules;
ghost use Rattle.row_rules.specs.RowSteps.Starting.{expr_op_starts, form_op_starts, selected_among};
ghost use Rattle.name_rules.specs.ShapeSteps.State as states;
ghost use Rattle.expr_shapes.specs.ShapeStacks.Views.{state_in};
ghost use Rattle.name_tables.specs.UnitSpelling.Spelled.{spelling_of};
ghost use Rattle.unit_shapes.specs.Views.{names_in, AreImplicit};
ghost use Rattle.unit_starts.specs.Views.{starts_in, fresh_at, some_fresh_at, prefix_at, pick_at};
ghost use Rattle.name_rules.specs.Values.{Candidate, address, cond_type};
ghost use Rattle.name_rules.specs.ShapeSteps.Steps.{chosen};
ghost use Rattle.expr_shapes.specs.ShapeValues.Views.{shape_in};
ghost use Rattle.expr_shapes.specs.ShapeValues.Picks.{IsPicked};

use crate::names::use_start;
use crate::operands::{
    condition_value, control, is_fresh_binary, is_fresh_condition, is_fresh_prefix, type_at,
};
use crate::start::{Around, Start};
use c_words::Punct;
use expr_shapes::shape_stacks::Stacks;
use expr_shapes::shape_values::{ExprShape, Picked, ValueType, address};
use expr_shapes::{chosen, selected};
use name_state::found_names::FoundNames;
use name_tables::name_scopes::Place;
use name_tables::unit_spelling::Spelling;
use row_world::tape_rounds::Rounds;
use tape_ops::{ExprOp, FormOp};
use type_table::TypeTable;
use unit_shapes::ImplicitTypes;

/// A fresh skeleton of a number, where there is one. Constant time.
fn fresh_number(
    types: &TypeTable,
    implicit: &ImplicitTypes,
    around: &Around,
    is_fresh: bool,
    at: &Place,
) -> Option<Start>
    requires { AreImplicit types.now implicit.now }
    ensures { starts_in types.now result
        ≡ rules.fresh_where is_fresh (fresh_at around.now at.now (base [])) }
{
    if is_fresh {
        around.fresh(types, at, ValueType::Of(implicit.plain.base))
    } else {
        None
    }
}

/// A fresh skeleton of what has no value, where there is one. Constant time.
fn fresh_void(
    types: &TypeTable,
    implicit: &ImplicitTypes,
    around: &Around,
    is_fresh: bool,
    at: &Place,
) -> Option<Start>
    requires { AreImplicit types.now implicit.now }
    ensures { starts_in types.now result
        ≡ rules.fresh_where is_fresh (fresh_at around.now at.now (void [])) }
{
    if is_fresh {
        around.fresh(types, at, ValueType::Of(implicit.plain.void))
    } else {
        None
    }
}

/// What begins at a condition: nothing where a branch is a zero. Constant time.
fn condition(types: &TypeTable, stacks: &Stacks, around: &Around, at: &Place) -> Option<Start>
    ensures { starts_in types.now result
        ≡ rules.fresh_where
        (not (states.is_zero_at 1 (state_in types.now stacks.now))
        && not (states.is_zero_at 0 (state_in types.now stacks.now)))
        (some_fresh_at around.now at.now
        (cond_type (states.is_zero_at 1 (state_in types.now stacks.now))
        (states.is_zero_at 0 (state_in types.now stacks.now))
        (states.value_at 1 (state_in types.now stacks.now))
        (states.value_at 0 (state_in types.now stacks.now)))) }
{
    if is_fresh_condition(types, stacks) {
        let value = condition_value(types, stacks);
        around.some_fresh(types, at, &value)
    } else {
        None
    }
}

/// What begins at a `&`, where its pointer is to carry the one by which its operand came to its place. Constant time.
fn carrying(
    types: &TypeTable,
    stacks: &Stacks,
    around: &Around,
    is_fresh: bool,
    at: &Place,
) -> Option<Start>
    ensures { starts_in types.now result ≡ rules.fresh_where is_fresh
        (some_fresh_at around.now at.now (address (states.shape_at 0 (state_in types.now stacks.now)))) }
{
    if is_fresh {
        around.some_fresh(types, at, &address(&stacks.shape_at(0)))
    } else {
        None
    }
}

/// What begins at an operator before its operand; `carries`: the pointer that `&` makes is to carry the one by which its operand came to
/// its place. Constant time.
fn prefix(
    types: &TypeTable,
    implicit: &ImplicitTypes,
    stacks: &Stacks,
    around: &Around,
    sign: Punct,
    carries: bool,
    at: &Place,
) -> Option<Start>
    requires { AreImplicit types.now implicit.now }
    ensures { starts_in types.now result
        ≡ prefix_at sign carries around.now at.now
        (states.shape_at 0 (state_in types.now stacks.now)) }
{
    match sign {
        Punct::Ampersand => carrying(types, stacks, around, carries, at),
        _ => fresh_number(types, implicit, around, is_fresh_prefix(sign), at),
    }
}

/// A fresh skeleton of the type of a shape, where that is known. Constant time.
fn fresh_shape(types: &TypeTable, around: &Around, at: &Place, shape: &ExprShape) -> Option<Start>
    ensures { starts_in types.now result
        ≡ some_fresh_at around.now at.now (shape_in types.now shape.now).type }
{
    match shape {
        ExprShape::Value(value) => around.some_fresh(types, at, value),
        ExprShape::Place(ty) => around.fresh_named(types, at, ty),
    }
}

/// What begins at a pick: a value of its own where several candidates are left. Constant time.
fn fresh_pick(types: &TypeTable, around: &Around, at: &Place, picked: &Picked) -> Option<Start>
    ensures { (all : List Candidate) → IsPicked types.now all picked.now
        → starts_in types.now result ≡ pick_at all around.now at.now }
{
    if picked.is_fresh() {
        fresh_shape(types, around, at, &picked.shape())
    } else {
        None
    }
}

/// What begins at a choice. Constant time.
fn choice(types: &TypeTable, stacks: &Stacks, around: &Around, at: &Place) -> Option<Start>
    ensures { starts_in types.now result
        ≡ pick_at (chosen (state_in types.now stacks.now)) around.now at.now }
{
    fresh_pick(types, around, at, &chosen(stacks, types))
}

/// What begins at a selection of so many associations; nothing where the control has no type. Linear in them.
fn selection(
    types: &TypeTable,
    stacks: &Stacks,
    around: &Around,
    at: &Place,
    count: u32,
) -> Option<Start>
    ensures { starts_in types.now result
        ≡ pick_at (selected_among count (state_in types.now stacks.now)) around.now at.now }
{
    match control(types, stacks, count) {
        Some(_) => fresh_pick(types, around, at, &selected(stacks, types, count)),
        None => None,
    }
}

/// What begins at an operand or operator. Constant time.
pub(crate) fn expression(
    stacks: &Stacks,
    spelling: &Spelling,
    names: &FoundNames,
    types: &TypeTable,
    implicit: &ImplicitTypes,
    rounds: &Rounds,
    op: ExprOp,
) -> Option<Start>
    requires { AreImplicit types.now implicit.now }
    ensures { starts_in types.now result
        ≡ expr_op_starts (spelling_of spelling.now) (names_in types.now names.now)
        (state_in types.now stacks.now) rounds.now op }
{
    let around = Around::new(spelling, names, types, rounds);
    match op {
        ExprOp::Name { token, .. } => {
            use_start(spelling, names, types, implicit, &around, token)
        }
        ExprOp::Number { token } => {
            fresh_number(types, implicit, &around, true, &spelling.place(token))
        }
        ExprOp::Char { token } => {
            fresh_number(types, implicit, &around, true, &spelling.place(token))
        }
        ExprOp::Text { token } => around.fresh(
            types,
            &spelling.place(token),
            ValueType::PointerTo(implicit.plain.text),
        ),
        ExprOp::Paren { .. } => None,
        ExprOp::Ext { .. } => None,
        ExprOp::Comma { .. } => None,
        ExprOp::Assign { .. } => None,
        ExprOp::Cond { token, .. } => condition(types, stacks, &around, &spelling.place(token)),
        ExprOp::Binary { sign, token, .. } => {
            let is_fresh = is_fresh_binary(types, stacks, sign);
            fresh_number(types, implicit, &around, is_fresh, &spelling.place(token))
        }
        ExprOp::Prefix {
            sign,
            token,
            aims,
            ..
        } => {
            let carries = around.carries(aims);
            prefix(
                types,
                implicit,
                stacks,
                &around,
                sign,
                carries,
                &spelling.place(token),
            )
        }
        ExprOp::Post { .. } => None,
        ExprOp::Index { .. } => None,
        ExprOp::Arg { .. } => None,
        ExprOp::Call { .. } => None,
        ExprOp::Arrow { .. } => None,
        ExprOp::Dot { .. } => None,
        ExprOp::Label { token } => around.fresh(
            types,
            &spelling.place(token),
            ValueType::PointerTo(implicit.plain.void),
        ),
    }
}

/// What begins at a form. Constant time, and linear in the associations of a selection.
pub(crate) fn form(
    stacks: &Stacks,
    spelling: &Spelling,
    names: &FoundNames,
    types: &TypeTable,
    implicit: &ImplicitTypes,
    rounds: &Rounds,
    op: FormOp,
) -> Option<Start>
    requires { AreImplicit types.now implicit.now }
    ensures { starts_in types.now result
        ≡ form_op_starts (spelling_of spelling.now) (names_in types.now names.now)
        (state_in types.now stacks.now) rounds.now op }
{
    let around = Around::new(spelling, names, types, rounds);
    match op {
        FormOp::Cast { token, .. } => {
            around.fresh_named(types, &spelling.place(token), &type_at(types, stacks, 1))
        }
        FormOp::Sizeof { token } => {
            let outside = Around::outside(spelling, names, types, rounds);
            fresh_number(types, implicit, &outside, true, &spelling.place(token))
        }
        FormOp::StmtExpr { has_value, token } => {
            fresh_void(types, implicit, &around, !has_value, &spelling.place(token))
        }
        FormOp::VaArg { token, .. } => {
            around.fresh_named(types, &spelling.place(token), &type_at(types, stacks, 0))
        }
        FormOp::VaStart { token, .. } => {
            fresh_void(types, implicit, &around, true, &spelling.place(token))
        }
        FormOp::VaCopy { token, .. } => {
            fresh_void(types, implicit, &around, true, &spelling.place(token))
        }
        FormOp::OffsetMember { .. } => None,
        FormOp::OffsetIndex { .. } => None,
        FormOp::Offset { token } => {
            let outside = Around::outside(spelling, names, types, rounds);
            fresh_number(types, implicit, &outside, true, &spelling.place(token))
        }
        FormOp::Compat { token } => {
            let outside = Around::outside(spelling, names, types, rounds);
            fresh_number(types, implicit, &outside, true, &spelling.place(token))
        }
        FormOp::Control => None,
        FormOp::NoType => None,
        FormOp::Choose { token } => choice(types, stacks, &around, &spelling.place(token)),
        FormOp::Generic { token, count } => {
            selection(types, stacks, &around, &spelling.place(token), count)
        }
    }
}
