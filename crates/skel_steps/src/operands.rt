//! Operands.

ghost use Rattle.std.specs.Prelude.{◌≡◌, Bool, ℕ, OnOk};
ghost use Rattle.tape_ops.specs.declared.expression.ExprOp.TheVariants as exprs;
ghost use Rattle.row_rules.specs.Vals as vals;
ghost use Rattle.row_rules.specs.RowSteps.State as states;
ghost use Rattle.row_rules.specs.RowSteps.Steps as steps;
ghost use Rattle.row_world.specs.Shown.{skel};
ghost use Rattle.skel_steps.specs.SkelStacks.Views.{Tables, skel_in, state_in};
ghost use Rattle.skel_steps.specs.Stepping.{Steps, state_of};

use crate::skel_stacks::Stacks;
use qual_base::{NoMemory, SkelId, TokenId};
use row_world::{Known, Operand, value};

/// The skeleton of the value of an operand with so many above it. Constant time.
pub fn value_at(known: &Known, stacks: &Stacks, depth: usize) -> SkelId
    ensures { skel known.now result ≡ states.value_at depth (state_of known.now stacks.now) }
{
    value(known.vars, &stacks.val_at(known.vars, depth))
}

/// A value takes the place of so many operands. Constant time for each, but for growth.
pub(crate) fn put_value(
    stacks: &mut Stacks,
    count: usize,
    at: SkelId,
    is_zero: bool,
) -> Result<(), NoMemory>
    ensures { OnOk result ((t : Tables) → state_in t stacks.new
        ≡ states.operand_put count (states.expression (vals.a_value (skel_in t at)) is_zero)
        (state_in t stacks.old)) }
{
    stacks.put(count, &Operand::a_value(at), is_zero)
}

/// A place takes the place of so many operands. Constant time for each, but for growth.
pub(crate) fn put_place(stacks: &mut Stacks, count: usize, at: SkelId) -> Result<(), NoMemory>
    ensures { OnOk result ((t : Tables) → state_in t stacks.new
        ≡ states.put count (vals.a_place (skel_in t at)) (state_in t stacks.old)) }
{
    stacks.put(count, &Operand::a_place(at), false)
}

/// The fresh value at a token takes the place of so many operands. Constant time for each, but for growth.
pub(crate) fn put_own(
    known: &Known,
    stacks: &mut Stacks,
    count: usize,
    token: TokenId,
) -> Result<(), NoMemory>
    ensures { OnOk result (Steps known.now
        (λ w st. states.put count (vals.a_value (vals.own w token)) st) stacks.old stacks.new) }
{
    put_value(stacks, count, known.own(token), false)
}

/// A name. Constant time but for growth.
pub(crate) fn name(known: &Known, stacks: &mut Stacks, token: TokenId) -> Result<(), NoMemory>
    ensures { OnOk result ((is_called : Bool) (name : ℕ) → Steps known.now
        (λ w st. steps.expr_step w st (exprs.Name is_called token name)) stacks.old stacks.new) }
{
    let found = known.use_at(token);
    let val = known.used(token, &found);
    stacks.put(0, &val, false)
}

/// A number. Constant time but for growth.
pub(crate) fn number(known: &Known, stacks: &mut Stacks, token: TokenId) -> Result<(), NoMemory>
    ensures { OnOk result (Steps known.now
        (λ w st. steps.expr_step w st (exprs.Number token)) stacks.old stacks.new) }
{
    let own = known.own(token);
    let is_naught = known.spelling.is_naught(token);
    put_value(stacks, 0, own, is_naught)
}

/// A text, which is a place. Constant time but for growth.
pub(crate) fn text(known: &Known, stacks: &mut Stacks, token: TokenId) -> Result<(), NoMemory>
    ensures { OnOk result (Steps known.now
        (λ w st. steps.expr_step w st (exprs.Text token)) stacks.old stacks.new) }
{
    put_place(stacks, 0, known.own(token))
}

/// What an operand is, but no zero. Constant time.
pub(crate) fn extension(known: &Known, stacks: &mut Stacks) -> Result<(), NoMemory>
    ensures { OnOk result ((token : ℕ) → Steps known.now
        (λ w st. steps.expr_step w st (exprs.Ext token)) stacks.old stacks.new) }
{
    let val = stacks.val_at(known.vars, 0);
    stacks.put(1, &val, false)
}
