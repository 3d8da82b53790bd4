//! What each op of a tape does to the stacks.

ghost use Rattle.std.specs.Prelude.{OnOk};
ghost use Rattle.row_rules.specs.RowSteps.Steps as steps;
ghost use Rattle.skel_steps.specs.Stepping.{Steps};

use crate::declarators::{step_declarator, step_specifier, step_statement};
use crate::expressions::step_expression;
use crate::forms::step_form;
use crate::initialisers::step_initialiser;
use crate::skel_stacks::Stacks;
use qual_base::NoMemory;
use row_world::Known;
use tape_ops::Op;

/// What an op does to all but what is around. Constant time for each operand that it takes, and linear in the members of the
/// struct that it takes one of.
fn step_stacks(known: &Known, stacks: &mut Stacks, op: Op) -> Result<(), NoMemory>
    ensures { OnOk result
        (Steps known.now (λ w st. steps.stack_step w st op) stacks.old stacks.new) }
{
    match op {
        Op::Expr(op) => step_expression(known, stacks, op),
        Op::Form(op) => step_form(known, stacks, op),
        Op::Init(op) => step_initialiser(known, stacks, op),
        Op::Spec(op) => step_specifier(stacks, op),
        Op::Declr(op) => step_declarator(known, stacks, op),
        Op::Stmt(op) => {
            step_statement(stacks, op);
            Ok(())
        }
    }
}

/// What an op does. Constant time for each operand that it takes, and linear in the members of the struct that it takes one of.
pub fn step(known: &Known, stacks: &mut Stacks, op: &Op) -> Result<(), NoMemory>
    ensures { OnOk result
        (Steps known.now (λ w st. steps.step w st op.now) stacks.old stacks.new) }
{
    stacks.pass_around(*op)?;
    step_stacks(known, stacks, *op)
}
