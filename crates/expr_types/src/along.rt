//! The loop over a tape.

ghost use Rattle.std.specs.Prelude.{◌≡◌, OnOk};
ghost use Rattle.name_rules.specs.ShapeSteps.State as states;
ghost use Rattle.name_rules.specs.ShapeSteps.State.{nothing};
ghost use Rattle.name_rules.specs.ShapeSteps.Steps.{step};
ghost use Rattle.expr_shapes.specs.ShapeValues.Views.{shape_in};
ghost use Rattle.expr_shapes.specs.ShapeStacks.Views.{state_in};
ghost use Rattle.name_rules.specs.Spellings.{Place};
ghost use Rattle.name_tables.specs.PlaceMap.Values.{or_else};
ghost use Rattle.name_tables.specs.UnitSpelling.Spelled.{spelling_of};
ghost use Rattle.unit_shapes.specs.Views.{names_in, AreImplicit};
ghost use Rattle.expr_types.specs.Along.{literal_on, op_shape, keyed, shapes_along, first_at};
ghost use Rattle.expr_types.specs.Keys.{op_key};
ghost use Rattle.expr_types.specs.Views.{found_at};

use crate::keys::key;
use expr_shapes::shape_stacks::Stacks;
use expr_shapes::shape_values::ExprShape;
use name_state::found_names::FoundNames;
use name_tables::place_map::PlaceMap;
use name_tables::unit_spelling::Spelling;
use qual_base::{NoMemory, TokenId};
use std::alloc::Global;
use tape_ops::Op;
use type_table::TypeTable;
use unit_shapes::{ImplicitTypes, step};

/// The compound literal whose values are on the stack, with its type under them. Constant time.
fn literal(types: &TypeTable, stacks: &Stacks) -> ExprShape
    ensures { shape_in types.now result ≡ literal_on (state_in types.now stacks.now) }
{
    let _ = types;
    ExprShape::Place(stacks.type_at(stacks.depth_below()))
}

/// What an op ends, behind it, by what is on the stacks, and by the literal that was there before. Constant time.
fn ended(types: &TypeTable, stacks: &Stacks, literal: &ExprShape, op: Op) -> ExprShape
    ensures { (before : states.State) → shape_in types.now literal.now ≡ literal_on before
        → shape_in types.now result ≡ op_shape before (state_in types.now stacks.now) op }
{
    let _ = types;
    match op {
        Op::Expr(_) => stacks.shape_at(0),
        Op::Form(_) => stacks.shape_at(0),
        Op::Init(_) => *literal,
        Op::Spec(_) => ExprShape::Place(None),
        Op::Declr(_) => ExprShape::Place(None),
        Op::Stmt(_) => ExprShape::Place(None),
    }
}

/// Adds what an op ends, where it has a key and this is the first at it. Constant time but for growth.
fn add(
    types: &TypeTable,
    found: &mut PlaceMap<ExprShape>,
    spelling: &Spelling,
    key: &Option<TokenId>,
    shape: &ExprShape,
) -> Result<(), NoMemory>
    ensures { OnOk result ((at : Place) → found_at types.now found.new at
        ≡ or_else (found_at types.now found.old at)
        (first_at (keyed (spelling_of spelling.now) key.now (shape_in types.now shape.now)) at)) }
{
    let _ = types;
    match key {
        Some(token) => found.add(&spelling.place(*token), shape),
        None => Ok(()),
    }
}

/// Passes an op, and adds what it ends. Constant time for each operand that it takes, but for growth.
fn pass(
    found: &mut PlaceMap<ExprShape>,
    stacks: &mut Stacks,
    spelling: &Spelling,
    names: &FoundNames,
    types: &TypeTable,
    implicit: &ImplicitTypes,
    op: &Op,
) -> Result<(), NoMemory>
    requires { AreImplicit types.now implicit.now }
    ensures passed { OnOk result (state_in types.now stacks.new
        ≡ step (spelling_of spelling.now) (names_in types.now names.now)
        (state_in types.now stacks.old) op.now) }
    ensures ended { OnOk result ((at : Place) → found_at types.now found.new at
        ≡ or_else (found_at types.now found.old at)
        (first_at (keyed (spelling_of spelling.now) (op_key op.now)
        (op_shape (state_in types.now stacks.old)
        (step (spelling_of spelling.now) (names_in types.now names.now)
        (state_in types.now stacks.old) op.now) op.now)) at)) }
{
    let literal = literal(types, stacks);
    step(stacks, spelling, names.names(), types, implicit, *op)?;
    let shape = ended(types, stacks, &literal, *op);
    add(types, found, spelling, &key(*op), &shape)
}

/// Adds what stands at the key tokens along a tape, where it is the first there. Linear in the tape, but for growth, and in the
/// members of the structs one of which an op names.
fn find(
    found: &mut PlaceMap<ExprShape>,
    stacks: &mut Stacks,
    spelling: &Spelling,
    names: &FoundNames,
    types: &TypeTable,
    implicit: &ImplicitTypes,
    tape: &[Op],
) -> Result<(), NoMemory>
    requires { AreImplicit types.now implicit.now }
    ensures { OnOk result ((at : Place) → found_at types.now found.new at
        ≡ or_else (found_at types.now found.old at)
        (first_at (shapes_along (spelling_of spelling.now) (names_in types.now names.now)
        (state_in types.now stacks.old) tape.now) at)) }
{
    for op in tape {
        pass(found, stacks, spelling, names, types, implicit, op)?;
    }
    Ok(())
}

/// Adds what stands at the key tokens of a unit. Linear in its tape, but for growth.
pub(crate) fn find_unit(
    alloc: Global,
    found: &mut PlaceMap<ExprShape>,
    spelling: &Spelling,
    names: &FoundNames,
    types: &TypeTable,
    implicit: &ImplicitTypes,
    tape: &[Op],
) -> Result<(), NoMemory>
    requires { AreImplicit types.now implicit.now }
    ensures { OnOk result ((at : Place) → found_at types.now found.new at
        ≡ or_else (found_at types.now found.old at)
        (first_at (shapes_along (spelling_of spelling.now) (names_in types.now names.now)
        nothing tape.now) at)) }
{
    let mut stacks = Stacks::new(alloc);
    find(found, &mut stacks, spelling, names, types, implicit, tape)
}
