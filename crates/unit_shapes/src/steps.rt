//! What each op of a tape does to the stacks.

ghost use Rattle.std.specs.Prelude.{◌≡◌, OnOk};
ghost use Rattle.name_rules.specs.ShapeSteps.State as states;
ghost use Rattle.name_rules.specs.ShapeSteps.Steps as steps;
ghost use Rattle.expr_shapes.specs.ShapeStacks.Views.{state_in};
ghost use Rattle.name_tables.specs.UnitSpelling.Spelled.{spelling_of};
ghost use Rattle.tape_ops.specs.declared.declarator.DeclrOp.TheVariants as declrs;
ghost use Rattle.unit_shapes.specs.Views.{names_in, AreImplicit};

use crate::expressions::{expression, form};
use crate::initialisers::initialiser;
use crate::uses::{ImplicitTypes, type_named};
use expr_shapes as shapes;
use expr_shapes::shape_stacks::Stacks;
use name_state::unit_names::Names;
use name_tables::unit_spelling::Spelling;
use qual_base::{NoMemory, TokenId};
use tape_ops::{DeclrOp, Op, SpecOp, StmtOp};
use type_table::TypeTable;

/// What a word of specifiers does. Constant time but for growth.
fn specifier(stacks: &mut Stacks, types: &TypeTable, op: SpecOp) -> Result<(), NoMemory>
    ensures { OnOk result (state_in types.now stacks.new
        ≡ steps.spec_step (state_in types.now stacks.old) op) }
{
    let _ = types;
    match op {
        SpecOp::Word { .. }
        | SpecOp::Storage { .. }
        | SpecOp::Void
        | SpecOp::Typedef { .. }
        | SpecOp::TagUse { .. }
        | SpecOp::TagAlone { .. }
        | SpecOp::TagBody { .. }
        | SpecOp::Untagged { .. }
        | SpecOp::BodyEnd
        | SpecOp::Enumerator { .. }
        | SpecOp::UnnamedMember { .. }
        | SpecOp::PartBegin
        | SpecOp::TypeofEnd { .. } => Ok(()),
        SpecOp::TypeEnd => {
            stacks.drop_operands(1);
            Ok(())
        }
        SpecOp::SpecsEnd => stacks.open(),
    }
}

/// A type's name, which leaves its type. Constant time but for growth.
fn type_name(
    stacks: &mut Stacks,
    spelling: &Spelling,
    names: &Names,
    types: &TypeTable,
    first: TokenId,
) -> Result<(), NoMemory>
    ensures { OnOk result (state_in types.now stacks.new
        ≡ steps.declr_step (spelling_of spelling.now) (names_in types.now names.now)
        (state_in types.now stacks.old) (declrs.TypeName first)) }
{
    let ty = type_named(names, types, &spelling.place(first));
    stacks.close();
    shapes::named(stacks, &ty)
}

/// What a part of a declarator does. Constant time but for growth.
fn declarator(
    stacks: &mut Stacks,
    spelling: &Spelling,
    names: &Names,
    types: &TypeTable,
    op: DeclrOp,
) -> Result<(), NoMemory>
    ensures { OnOk result (state_in types.now stacks.new
        ≡ steps.declr_step (spelling_of spelling.now) (names_in types.now names.now)
        (state_in types.now stacks.old) op) }
{
    match op {
        DeclrOp::DeclName { token, .. } => stacks.name(token),
        DeclrOp::Param => {
            stacks.close();
            Ok(())
        }
        DeclrOp::ParamsBegin { .. }
        | DeclrOp::ParamsEnd
        | DeclrOp::Pointer
        | DeclrOp::Array
        | DeclrOp::Function { .. }
        | DeclrOp::AutoBegin
        | DeclrOp::Identifier { .. } => Ok(()),
        DeclrOp::Declare => stacks.declare(),
        DeclrOp::AutoEnd { .. } => stacks.declare(),
        DeclrOp::OldParam => stacks.declare(),
        DeclrOp::Member => stacks.leave_name(),
        DeclrOp::TypeName { first } => type_name(stacks, spelling, names, types, first),
        DeclrOp::DeclarationEnd => {
            stacks.close();
            Ok(())
        }
    }
}

/// What a statement does. Constant time.
fn statement(stacks: &mut Stacks, types: &TypeTable, op: StmtOp)
    ensures { state_in types.now stacks.new
        ≡ steps.stmt_step (state_in types.now stacks.old) op }
{
    let _ = types;
    match op {
        StmtOp::Loud => stacks.drop_operands(1),
        StmtOp::Pop => stacks.drop_operands(1),
        StmtOp::Return { .. } => stacks.drop_operands(1),
        StmtOp::Quiet
        | StmtOp::Enter
        | StmtOp::Leave
        | StmtOp::FunctionBody
        | StmtOp::FunctionEnd => {}
    }
}

/// What an op of a tape does to the stacks. Constant time for each operand that it takes, but for
/// growth.
pub fn step(
    stacks: &mut Stacks,
    spelling: &Spelling,
    names: &Names,
    types: &TypeTable,
    implicit: &ImplicitTypes,
    op: Op,
) -> Result<(), NoMemory>
    requires { AreImplicit types.now implicit.now }
    ensures { OnOk result (state_in types.now stacks.new
        ≡ steps.step (spelling_of spelling.now) (names_in types.now names.now)
        (state_in types.now stacks.old) op) }
{
    match op {
        Op::Expr(op) => expression(stacks, spelling, names, types, implicit, op),
        Op::Form(op) => form(stacks, spelling, names, types, implicit, op),
        Op::Init(op) => initialiser(stacks, spelling, names, types, op),
        Op::Spec(op) => {
            specifier(stacks, types, op)?;
            Ok(())
        }
        Op::Declr(op) => declarator(stacks, spelling, names, types, op),
        Op::Stmt(op) => {
            statement(stacks, types, op);
            Ok(())
        }
    }
}
