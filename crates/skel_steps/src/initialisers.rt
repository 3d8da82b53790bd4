//! What parts of initialisers do to the stacks.

ghost use Rattle.std.specs.Prelude.{ℕ, OnOk};
ghost use Rattle.tape_ops.specs.declared.initialiser.InitOp.TheVariants as inits;
ghost use Rattle.row_rules.specs.RowSteps.Steps as steps;
ghost use Rattle.skel_steps.specs.Stepping.{Steps};

use crate::skel_stacks::Stacks;
use crate::targets::{initialised_by, target_in, with_member};
use qual_base::{NameId, NoMemory};
use row_world::Known;
use tape_ops::InitOp;

/// The rule for the name that was declared last. Linear in the operands of its initialiser.
fn rule(known: &Known, stacks: &mut Stacks) -> Result<(), NoMemory>
    ensures { OnOk result (Steps known.now
        (λ w st. steps.init_step w st inits.Rule) stacks.old stacks.new) }
{
    let token = stacks.declared_last();
    let target = initialised_by(known, &token);
    stacks.go_through(&target)
}

/// A list in braces begins, at the next target. Constant time but for growth.
fn begin_list(known: &Known, stacks: &mut Stacks) -> Result<(), NoMemory>
    ensures { OnOk result (Steps known.now
        (λ w st. steps.init_step w st inits.ListBegin) stacks.old stacks.new) }
{
    let it = stacks.braces();
    let target = target_in(known, &it);
    stacks.begin_list(&target)
}

/// A designator of a member. Linear in the members of its struct.
fn designate(known: &Known, stacks: &mut Stacks, name: NameId) -> Result<(), NoMemory>
    ensures { OnOk result ((token : ℕ) → Steps known.now
        (λ w st. steps.init_step w st (inits.Member token name)) stacks.old stacks.new) }
{
    let it = stacks.braces();
    let next = with_member(known, name, &it)?;
    stacks.replace_braces(&next)
}

/// What a part of an initialiser does. Constant time, but for the operands that it goes through or drops, and linear in the
/// members of the struct that it takes one of.
pub(crate) fn step_initialiser(
    known: &Known,
    stacks: &mut Stacks,
    op: InitOp,
) -> Result<(), NoMemory>
    ensures { OnOk result
        (Steps known.now (λ w st. steps.init_step w st op) stacks.old stacks.new) }
{
    match op {
        InitOp::Value { .. } => {
            stacks.drop_operands(1);
            Ok(())
        }
        InitOp::Begin => stacks.begin(),
        InitOp::Rule => rule(known, stacks),
        InitOp::Literal { token } => stacks.go_through_literal(known.vars, known.own(token)),
        InitOp::ListBegin => begin_list(known, stacks),
        InitOp::Member { name, .. } => designate(known, stacks, name),
        InitOp::Index { .. } => stacks.index(known.vars),
        InitOp::Leaf { .. } => stacks.take_leaf(),
        InitOp::ListEnd => stacks.leave_list(),
        InitOp::End => {
            stacks.leave();
            Ok(())
        }
        InitOp::LiteralEnd => stacks.leave_literal(known.vars),
    }
}
