//! What begins at an op of a tape.

ghost use Rattle.std.specs.Prelude.{◌≡◌};
ghost use Rattle.row_rules.specs.Starting.{had_name};
ghost use Rattle.row_rules.specs.RowSteps.Rounds.{naming};
ghost use Rattle.row_rules.specs.RowSteps.Starting.{around, naming_has, init_op_starts};
ghost use Rattle.row_rules.specs.RowSteps.Starting.{spec_op_starts, declr_op_starts, op_starts};
ghost use Rattle.expr_shapes.specs.ShapeStacks.Views.{state_in};
ghost use Rattle.name_tables.specs.UnitSpelling.Spelled.{spelling_of};
ghost use Rattle.unit_shapes.specs.Views.{names_in, AreImplicit};
ghost use Rattle.unit_starts.specs.Views.{starts_in};

use crate::expressions::{expression, form};
use crate::names::{had_name, name_start};
use crate::operands::literal_place;
use crate::start::{Around, Start};
use expr_shapes::shape_stacks::Stacks;
use name_state::found_names::FoundNames;
use name_tables::unit_spelling::Spelling;
use qual_base::TokenId;
use row_world::tape_rounds::Rounds;
use tape_ops::{DeclrOp, InitOp, Op, SpecOp};
use type_table::TypeTable;
use unit_shapes::ImplicitTypes;

/// What begins at a part of an initialiser. Constant time.
fn initialiser(
    stacks: &Stacks,
    spelling: &Spelling,
    names: &FoundNames,
    types: &TypeTable,
    rounds: &Rounds,
    op: InitOp,
) -> Option<Start>
    ensures { starts_in types.now result
        ≡ init_op_starts (spelling_of spelling.now) (names_in types.now names.now)
        (state_in types.now stacks.now) rounds.now op }
{
    match op {
        InitOp::Value { .. } => None,
        InitOp::Begin => None,
        InitOp::Rule => None,
        InitOp::Literal { token } => {
            let around = Around::new(spelling, names, types, rounds);
            let ty = literal_place(types, stacks);
            around.some_fresh(types, &spelling.place(token), &ty)
        }
        InitOp::ListBegin => None,
        InitOp::Member { .. } => None,
        InitOp::Index { .. } => None,
        InitOp::Leaf { .. } => None,
        InitOp::ListEnd => None,
        InitOp::End => None,
        InitOp::LiteralEnd => None,
    }
}

/// What begins at a word of specifiers. Constant time.
fn specifier(
    spelling: &Spelling,
    names: &FoundNames,
    types: &TypeTable,
    rounds: &Rounds,
    op: SpecOp,
) -> Option<Start>
    ensures { starts_in types.now result
        ≡ spec_op_starts (spelling_of spelling.now) (names_in types.now names.now)
        rounds.now op }
{
    match op {
        SpecOp::Word { .. } => None,
        SpecOp::Storage { .. } => None,
        SpecOp::Void => None,
        SpecOp::Typedef { .. } => None,
        SpecOp::TagUse { .. } => None,
        SpecOp::TagAlone { .. } => None,
        SpecOp::TagBody { .. } => None,
        SpecOp::Untagged { .. } => None,
        SpecOp::BodyEnd => None,
        SpecOp::Enumerator { .. } => None,
        SpecOp::UnnamedMember { token } => {
            let around = Around::new(spelling, names, types, rounds);
            name_start(spelling, names, types, &around.enclosing, token)
        }
        SpecOp::PartBegin => None,
        SpecOp::TypeofEnd { .. } => None,
        SpecOp::TypeEnd => None,
        SpecOp::SpecsEnd => None,
    }
}

/// What begins at the name of a declarator. Constant time.
fn declarator_name(
    spelling: &Spelling,
    names: &FoundNames,
    types: &TypeTable,
    rounds: &Rounds,
    token: TokenId,
) -> Option<Start>
    ensures { starts_in types.now result
        ≡ had_name (naming_has (spelling_of spelling.now) (names_in types.now names.now)
        (naming rounds.now))
        (around (spelling_of spelling.now) (names_in types.now names.now) rounds.now) token }
{
    let around = Around::new(spelling, names, types, rounds);
    had_name(spelling, names, types, &around, rounds.naming(), token)
}

/// What begins at a part of a declarator. Constant time.
fn declarator(
    spelling: &Spelling,
    names: &FoundNames,
    types: &TypeTable,
    rounds: &Rounds,
    op: DeclrOp,
) -> Option<Start>
    ensures { starts_in types.now result
        ≡ declr_op_starts (spelling_of spelling.now) (names_in types.now names.now)
        rounds.now op }
{
    match op {
        DeclrOp::DeclName { token, .. } => {
            declarator_name(spelling, names, types, rounds, token)
        }
        DeclrOp::ParamsBegin { .. } => None,
        DeclrOp::Param => None,
        DeclrOp::ParamsEnd => None,
        DeclrOp::Pointer => None,
        DeclrOp::Array => None,
        DeclrOp::Function { .. } => None,
        DeclrOp::Declare => None,
        DeclrOp::AutoBegin => None,
        DeclrOp::AutoEnd { .. } => None,
        DeclrOp::Identifier { .. } => None,
        DeclrOp::OldParam => None,
        DeclrOp::Member => None,
        DeclrOp::TypeName { .. } => None,
        DeclrOp::DeclarationEnd => None,
    }
}

/// What begins at an op, by the stacks and by its context. Constant time.
pub(crate) fn start_of(
    stacks: &Stacks,
    spelling: &Spelling,
    names: &FoundNames,
    types: &TypeTable,
    implicit: &ImplicitTypes,
    rounds: &Rounds,
    op: Op,
) -> Option<Start>
    requires { AreImplicit types.now implicit.now }
    ensures { starts_in types.now result
        ≡ op_starts (spelling_of spelling.now) (names_in types.now names.now)
        (state_in types.now stacks.now) rounds.now op }
{
    match op {
        Op::Expr(op) => expression(stacks, spelling, names, types, implicit, rounds, op),
        Op::Form(op) => form(stacks, spelling, names, types, implicit, rounds, op),
        Op::Init(op) => initialiser(stacks, spelling, names, types, rounds, op),
        Op::Spec(op) => specifier(spelling, names, types, rounds, op),
        Op::Declr(op) => declarator(spelling, names, types, rounds, op),
        Op::Stmt(_) => None,
    }
}
