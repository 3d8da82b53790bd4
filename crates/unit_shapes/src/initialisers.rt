//! What initialisers do to the stacks.

ghost use Rattle.std.specs.Prelude.{◌≡◌, List, OnOk};
ghost use Rattle.type_table.specs.declared.row.TypeRow as row;
ghost use Rattle.name_rules.specs.ShapeSteps.State as states;
ghost use Rattle.name_rules.specs.ShapeSteps.Steps as steps;
ghost use Rattle.expr_shapes.specs.ShapeValues.Views.{some_type};
ghost use Rattle.expr_shapes.specs.ShapeStacks.Views.{state_in, braces_in};
ghost use Rattle.name_tables.specs.UnitSpelling.Spelled.{spelling_of};
ghost use Rattle.unit_shapes.specs.Targets.{is_listed};
ghost use Rattle.unit_shapes.specs.Views.{names_in};

use crate::targets::{list_of, number_behind, target_in, with_member};
use crate::uses::type_declared;
use expr_shapes::shape_stacks::{Braces, Stacks};
use name_state::unit_names::Names;
use name_tables::unit_spelling::Spelling;
use qual_base::{NameId, NoMemory, TypeId};
use tape_ops::InitOp;
use type_table::TypeTable;

/// The type of the name that was declared last. Constant time.
fn type_of_name(
    stacks: &Stacks,
    spelling: &Spelling,
    names: &Names,
    types: &TypeTable,
) -> Option<TypeId>
    ensures { some_type types.now result
        ≡ steps.type_of_name (spelling_of spelling.now) (names_in types.now names.now)
        (states.declared_last (state_in types.now stacks.now).declarations) }
{
    match stacks.declared_last() {
        Some(token) => type_declared(names, types, &spelling.place(token)),
        None => None,
    }
}

/// The list for the name that was declared last is gone through next. Constant time but for growth.
fn rule(
    stacks: &mut Stacks,
    spelling: &Spelling,
    names: &Names,
    types: &TypeTable,
) -> Result<(), NoMemory>
    ensures { OnOk result (state_in types.now stacks.new
        ≡ steps.within (states.whole
        (steps.type_of_name (spelling_of spelling.now) (names_in types.now names.now)
        (states.declared_last (state_in types.now stacks.old).declarations)))
        (state_in types.now stacks.old)) }
{
    let ty = type_of_name(stacks, spelling, names, types);
    stacks.enter(&Braces::Whole(ty))
}

/// A list in braces begins. Constant time but for growth.
fn begin_list(stacks: &mut Stacks, names: &Names, types: &TypeTable) -> Result<(), NoMemory>
    ensures { OnOk result (state_in types.now stacks.new
        ≡ steps.within (steps.list_of (steps.target_in (names_in types.now names.now)
        (states.first_braces (state_in types.now stacks.old).braces)))
        (state_in types.now stacks.old)) }
{
    let target = target_in(names, types, &stacks.braces());
    stacks.enter(&list_of(&target))
}

/// Whether a list initialises something.
fn is_listed(it: &Braces) -> bool
    ensures { (rows : List row.TypeRow) → result ≡ is_listed (braces_in rows it.now) }
{
    match it {
        Braces::Whole(_) => false,
        Braces::Untargeted => false,
        Braces::Listed { .. } => true,
    }
}

/// The innermost list, behind a designator of a member. Constant time.

fn member(
    stacks: &mut Stacks,
    names: &Names,
    types: &TypeTable,
    name: NameId,
) -> Result<(), NoMemory>
    ensures { OnOk result (state_in types.now stacks.new
        ≡ steps.in_braces (steps.with_member (names_in types.now names.now).aggregates name)
        (state_in types.now stacks.old)) }
{
    let it = stacks.braces();
    if is_listed(&it) {
        let behind = number_behind(names, types, name, &it)?;
        let after = with_member(names, types, name, behind, &it);
        stacks.leave_list();
        stacks.enter(&after)
    } else {
        Ok(())
    }
}

/// The innermost list ends, and is an item of the one round it. Constant time.
fn end_list(stacks: &mut Stacks, types: &TypeTable) -> Result<(), NoMemory>
    ensures { OnOk result (state_in types.now stacks.new
        ≡ steps.in_braces steps.with_item (steps.list_left (state_in types.now stacks.old))) }
{
    let _ = types;
    stacks.leave_list();
    stacks.pass()
}

/// What a part of an initialiser does. Constant time for each operand that it drops.
pub(crate) fn initialiser(
    stacks: &mut Stacks,
    spelling: &Spelling,
    names: &Names,
    types: &TypeTable,
    op: InitOp,
) -> Result<(), NoMemory>
    ensures { OnOk result (state_in types.now stacks.new
        ≡ steps.init_step (spelling_of spelling.now) (names_in types.now names.now)
        (state_in types.now stacks.old) op) }
{
    match op {
        InitOp::Value { .. } => {
            stacks.drop_operands(1);
            Ok(())
        }
        InitOp::Begin => stacks.begin(),
        InitOp::Rule => rule(stacks, spelling, names, types),
        InitOp::Literal { .. } => stacks.enter_literal(),
        InitOp::ListBegin => begin_list(stacks, names, types),
        InitOp::Member { name, .. } => member(stacks, names, types, spelling.key(name)),
        InitOp::Index { .. } => stacks.index(types),
        InitOp::Leaf { .. } => stacks.pass(),
        InitOp::ListEnd => end_list(stacks, types),
        InitOp::End => {
            stacks.leave();
            Ok(())
        }
        InitOp::LiteralEnd => stacks.leave_literal(),
    }
}
