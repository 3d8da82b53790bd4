//! Choices and selections by a type.

ghost use Rattle.std.specs.Prelude.{◌≡◌, ◌||◌, ℕ, suc, List, Some, not, OnOk};
ghost use Rattle.name_rules.specs.Spellings.{Spelling};
ghost use Rattle.name_rules.specs.Scopes.{Names};
ghost use Rattle.name_rules.specs.Values as rules;
ghost use Rattle.name_rules.specs.Values.{is_of_type, has_of_type};
ghost use Rattle.expr_shapes.specs.ShapeValues.Picks.{IsPicked};
ghost use Rattle.type_table.specs.declared.row.TypeRow as row;
ghost use Rattle.expr_shapes.specs.ShapeValues.Views.{shape_in};
ghost use Rattle.tape_ops.specs.declared.expression.ExprOp.TheVariants as exprs;
ghost use Rattle.type_table.specs.Types.{CType};
ghost use Rattle.name_rules.specs.ShapeSteps.State as states;
ghost use Rattle.name_rules.specs.ShapeSteps.Steps as steps;
ghost use Rattle.expr_shapes.specs.ShapeStacks.Views.{state_in};
ghost use Rattle.tape_ops.specs.declared.form.FormOp.TheVariants as forms;
ghost use Rattle.expr_shapes.specs.Types.{ArePlain};
ghost use Rattle.expr_shapes.specs.Selecting.{with_candidate};

use crate::plain::Plain;
use crate::shape_stacks::Stacks;
use crate::shape_values::{ExprShape, Picked, ValueType};
use qual_base::NoMemory;
use type_table::TypeTable;

/// Twice a number.
fn twice(count: u32) -> usize
    ensures { result ≡ steps.twice count }
{
    2 * count as usize
}

/// The address of a label, a pointer to `void`. Constant time but for growth.
pub fn label(stacks: &mut Stacks, types: &TypeTable, plain: &Plain) -> Result<(), NoMemory>
    requires { ArePlain types.now plain.now }
    ensures { OnOk result ((u : Spelling) (s : Names) (token : ℕ)
        → state_in types.now stacks.new
        ≡ steps.expr_step u s (state_in types.now stacks.old) (exprs.Label token)) }
{
    let _ = types;
    stacks.put(
        0,
        &ExprShape::Value(Some(ValueType::PointerTo(plain.void))),
        false,
    )
}

/// The end of a question whether two types are compatible. Constant time.
pub fn compat(stacks: &mut Stacks, types: &TypeTable, plain: &Plain) -> Result<(), NoMemory>
    requires { ArePlain types.now plain.now }
    ensures { OnOk result ((u : Spelling) (s : Names) (token : ℕ)
        → state_in types.now stacks.new
        ≡ steps.form_step u s (state_in types.now stacks.old) (forms.Compat token)) }
{
    let _ = types;
    stacks.put(2, &ExprShape::Value(Some(ValueType::Of(plain.base))), false)
}

/// The place of a type that is not named, before the expression of `default`. Constant time but for growth.
pub fn no_type(stacks: &mut Stacks) -> Result<(), NoMemory>
    ensures { OnOk result ((rows : List row.TypeRow) (u : Spelling) (s : Names)
        → state_in rows stacks.new
        ≡ steps.form_step u s (state_in rows stacks.old) forms.NoType) }
{
    stacks.put_type(0, &None)
}

/// The candidates of a choice, whose expressions are on the stack. Constant time.
pub fn chosen(stacks: &Stacks, types: &TypeTable) -> Picked
    ensures { IsPicked types.now (steps.chosen (state_in types.now stacks.now)) result }
{
    let mut picked = Picked::new();
    picked.add(types, &stacks.shape_at(1), stacks.is_zero_at(1));
    picked.add(types, &stacks.shape_at(0), stacks.is_zero_at(0));
    picked
}

/// The end of a choice. Constant time.
pub fn choose(stacks: &mut Stacks, types: &TypeTable) -> Result<(), NoMemory>
    ensures { OnOk result ((u : Spelling) (s : Names) (token : ℕ)
        → state_in types.now stacks.new
        ≡ steps.form_step u s (state_in types.now stacks.old) (forms.Choose token)) }
{
    let shape = chosen(stacks, types).shape();
    stacks.put(2, &shape, false)
}

/// Whether an association of a selection of so many is one of the type of the control's value, by how many are behind it. Linear in the
/// depth of the types.
pub fn is_of_type(stacks: &Stacks, types: &TypeTable, count: u32, behind: u32) -> bool
    ensures { result ≡ is_of_type
        (states.value_at (steps.twice count) (state_in types.now stacks.now))
        (states.type_at (suc (steps.twice behind)) (state_in types.now stacks.now)) }
{
    let named = stacks.type_at(twice(behind) + 1);
    match stacks.value_at(types, twice(count)) {
        Some(control) => crate::shape_values::is_candidate(types, &control, &named),
        None => false,
    }
}

/// Whether some association of a selection is of the type of the control's value. Linear in their number.
pub fn has_of_type(stacks: &Stacks, types: &TypeTable, count: u32) -> bool
    ensures { result ≡ has_of_type
        (states.value_at (steps.twice count) (state_in types.now stacks.now))
        (steps.associations count (state_in types.now stacks.now)) }
{
    let mut left = count;
    while left > 0 {
        left -= 1;
        if is_of_type(stacks, types, count, left) {
            return true;
        }
    }
    false
}

/// Adds the expression of an association with so many behind it, where it is a candidate. Constant time.
fn add_where(picked: &mut Picked, is: bool, stacks: &Stacks, types: &TypeTable, behind: u32)
    ensures { (all : List rules.Candidate) → IsPicked types.now all picked.old
        → IsPicked types.now (with_candidate is all
        (steps.candidate_at (steps.twice behind) (state_in types.now stacks.now))) picked.new }
{
    if is {
        let depth = twice(behind);
        picked.add(types, &stacks.shape_at(depth), stacks.is_zero_at(depth));
    }
}

/// Whether an association is a candidate, by whether some one is of the type of the control's value. Linear in the depth of the types.
fn is_selected(has_some: bool, stacks: &Stacks, types: &TypeTable, count: u32, behind: u32) -> bool
    ensures { result ≡ (not has_some || is_of_type
        (states.value_at (steps.twice count) (state_in types.now stacks.now))
        (states.type_at (suc (steps.twice behind)) (state_in types.now stacks.now))) }
{
    !has_some || is_of_type(stacks, types, count, behind)
}

/// The candidates of a selection of so many associations: those of the type of the control's value, or all where there are none. Linear
/// in their number and in the depth of the types.
pub fn selected(stacks: &Stacks, types: &TypeTable, count: u32) -> Picked
    ensures { (t : CType)
        → states.value_at (steps.twice count) (state_in types.now stacks.now) ≡ Some t
        → IsPicked types.now (rules.selected t
        (steps.associations count (state_in types.now stacks.now))) result }
{
    let has_some = has_of_type(stacks, types, count);
    let mut picked = Picked::new();
    let mut left = count;
    while left > 0 {
        left -= 1;
        let is = is_selected(has_some, stacks, types, count, left);
        add_where(&mut picked, is, stacks, types, left);
    }
    picked
}

/// What a selection gives; nothing where the control has no type. Linear in the number of associations.
pub fn selected_shape(stacks: &Stacks, types: &TypeTable, count: u32) -> ExprShape
    ensures { shape_in types.now result ≡ rules.selected_shape
        (states.value_at (steps.twice count) (state_in types.now stacks.now))
        (steps.associations count (state_in types.now stacks.now)) }
{
    match stacks.value_at(types, twice(count)) {
        Some(_) => selected(stacks, types, count).shape(),
        None => ExprShape::Value(None),
    }
}

/// The end of a selection of so many associations. Linear in them.
pub fn select(stacks: &mut Stacks, types: &TypeTable, count: u32) -> Result<(), NoMemory>
    ensures { OnOk result ((u : Spelling) (s : Names) (token : ℕ)
        → state_in types.now stacks.new
        ≡ steps.form_step u s (state_in types.now stacks.old) (forms.Generic token count)) }
{
    let shape = selected_shape(stacks, types, count);
    stacks.put(twice(count) + 1, &shape, false)
}
