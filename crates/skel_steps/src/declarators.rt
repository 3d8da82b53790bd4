//! What specifiers, declarators and statements do to the stacks.

ghost use Rattle.std.specs.Prelude.{◌≡◌, OnOk};
ghost use Rattle.tape_ops.specs.declared.declarator.DeclrOp.TheVariants as declrs;
ghost use Rattle.row_rules.specs.RowSteps.Steps as steps;
ghost use Rattle.skel_steps.specs.SkelStacks.Views.{Tables, state_in};
ghost use Rattle.skel_steps.specs.Stepping.{Steps};

use crate::skel_stacks::Stacks;
use qual_base::{NoMemory, TokenId};
use row_world::Known;
use tape_ops::{DeclrOp, SpecOp, StmtOp};

/// What a word of specifiers does. Constant time but for growth.
pub(crate) fn step_specifier(stacks: &mut Stacks, op: SpecOp) -> Result<(), NoMemory>
    ensures { OnOk result ((t : Tables) → state_in t stacks.new
        ≡ steps.spec_step (state_in t stacks.old) op) }
{
    match op {
        SpecOp::Word { .. } => Ok(()),
        SpecOp::Storage { .. } => Ok(()),
        SpecOp::Void => Ok(()),
        SpecOp::Typedef { .. } => Ok(()),
        SpecOp::TagUse { .. } => Ok(()),
        SpecOp::TagAlone { .. } => Ok(()),
        SpecOp::TagBody { .. } => Ok(()),
        SpecOp::Untagged { .. } => Ok(()),
        SpecOp::BodyEnd => Ok(()),
        SpecOp::Enumerator { .. } => Ok(()),
        SpecOp::UnnamedMember { .. } => Ok(()),
        SpecOp::PartBegin => Ok(()),
        SpecOp::TypeofEnd { .. } => Ok(()),
        SpecOp::TypeEnd => {
            stacks.drop_operands(1);
            Ok(())
        }
        SpecOp::SpecsEnd => stacks.open(),
    }
}

/// A type's name, which leaves its type. Constant time but for growth.
fn type_name(known: &Known, stacks: &mut Stacks, first: TokenId) -> Result<(), NoMemory>
    ensures { OnOk result (Steps known.now
        (λ w st. steps.declr_step w st (declrs.TypeName first)) stacks.old stacks.new) }
{
    let ty = known.type_named(first);
    stacks.close();
    stacks.put_type(0, &ty)
}

/// What a part of a declarator does. Constant time but for growth.
pub(crate) fn step_declarator(
    known: &Known,
    stacks: &mut Stacks,
    op: DeclrOp,
) -> Result<(), NoMemory>
    ensures { OnOk result
        (Steps known.now (λ w st. steps.declr_step w st op) stacks.old stacks.new) }
{
    match op {
        DeclrOp::DeclName { token, .. } => stacks.name(token),
        DeclrOp::ParamsBegin { .. } => Ok(()),
        DeclrOp::Param => {
            stacks.close();
            Ok(())
        }
        DeclrOp::ParamsEnd => Ok(()),
        DeclrOp::Pointer => Ok(()),
        DeclrOp::Array => Ok(()),
        DeclrOp::Function { .. } => Ok(()),
        DeclrOp::Declare => stacks.declare(),
        DeclrOp::AutoBegin => Ok(()),
        DeclrOp::AutoEnd { .. } => stacks.declare(),
        DeclrOp::Identifier { .. } => Ok(()),
        DeclrOp::OldParam => stacks.declare(),
        DeclrOp::Member => stacks.leave_name(),
        DeclrOp::TypeName { first } => type_name(known, stacks, first),
        DeclrOp::DeclarationEnd => {
            stacks.close();
            Ok(())
        }
    }
}

/// What a statement does. Constant time.
pub(crate) fn step_statement(stacks: &mut Stacks, op: StmtOp)
    ensures { (t : Tables) → state_in t stacks.new ≡ steps.stmt_step (state_in t stacks.old) op }
{
    match op {
        StmtOp::Quiet => {}
        StmtOp::Loud => stacks.drop_operands(1),
        StmtOp::Pop => stacks.drop_operands(1),
        StmtOp::Return { .. } => stacks.drop_operands(1),
        StmtOp::Enter => {}
        StmtOp::Leave => {}
        StmtOp::FunctionBody => {}
        StmtOp::FunctionEnd => {}
    }
}
