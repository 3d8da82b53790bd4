//! Operators.

ghost use Rattle.std.specs.Prelude.{◌≡◌, ◌&&◌, ℕ, OnOk, if◌then◌else◌};
ghost use Rattle.c_words.specs.declared.kinds.Punct.{Punct};
ghost use Rattle.tape_ops.specs.declared.expression.ExprOp.TheVariants as exprs;
ghost use Rattle.qual_types.specs.Rows.{skel_of};
ghost use Rattle.row_rules.specs.Worlds.{World};
ghost use Rattle.row_rules.specs.Vals as vals;
ghost use Rattle.name_rules.specs.Checks.{is_star};
ghost use Rattle.row_rules.specs.RowSteps.State as states;
ghost use Rattle.row_rules.specs.RowSteps.Steps as steps;
ghost use Rattle.row_world.specs.Shown.{Shows, skel, val};
ghost use Rattle.row_world.specs.declared.known.Known.{Known};
ghost use Rattle.skel_steps.specs.Stepping.{Steps, state_of};

use crate::operands::{put_place, put_value, value_at};
use crate::skel_stacks::Stacks;
use c_words::Punct;
use qual_base::{NameId, NoMemory, SkelId, TokenId};
use qual_types::VarTable;
use row_world::{Known, Operand, binary, contents, is_ref, outcome, value};

/// The comma. Constant time.
pub(crate) fn comma(known: &Known, stacks: &mut Stacks) -> Result<(), NoMemory>
    ensures { OnOk result ((token : ℕ) → Steps known.now
        (λ w st. steps.expr_step w st (exprs.Comma token)) stacks.old stacks.new) }
{
    let value = value_at(known, stacks, 0);
    put_value(stacks, 2, value, false)
}

/// An assignment. Constant time.
pub(crate) fn assign(known: &Known, stacks: &mut Stacks) -> Result<(), NoMemory>
    ensures { OnOk result ((sign : Punct) (token first last : ℕ) → Steps known.now
        (λ w st. steps.expr_step w st (exprs.Assign sign token first last))
        stacks.old stacks.new) }
{
    let place = stacks.val_at(known.vars, 1);
    let held = contents(known.vars, place.skel);
    put_value(stacks, 2, held, false)
}

/// How many operands a condition has.
fn operand_count(has_middle: bool) -> usize
    ensures { result ≡ if has_middle then 3 else 2 }
{
    if has_middle { 3 } else { 2 }
}

/// The value of a condition. Constant time.
fn condition_value(known: &Known, stacks: &Stacks, token: TokenId) -> SkelId
    ensures { (w : World) → Shows known.now w → skel known.now result
        ≡ vals.branch w (states.is_zero_at 1 (state_of known.now stacks.now))
        (states.is_zero_at 0 (state_of known.now stacks.now)) token
        (states.value_at 1 (state_of known.now stacks.now))
        (states.value_at 0 (state_of known.now stacks.now)) }
{
    let first = value_at(known, stacks, 1);
    let second = value_at(known, stacks, 0);
    let first_is_zero = stacks.is_zero_at(1);
    let last_is_zero = stacks.is_zero_at(0);
    known.branch(first_is_zero, last_is_zero, token, first, second)
}

/// `?:`, with or without its middle. Constant time.
pub(crate) fn condition(
    known: &Known,
    stacks: &mut Stacks,
    has_middle: bool,
    token: TokenId,
) -> Result<(), NoMemory>
    ensures { OnOk result ((first last : ℕ) → Steps known.now
        (λ w st. steps.expr_step w st (exprs.Cond has_middle token first last))
        stacks.old stacks.new) }
{
    let value = condition_value(known, stacks, token);
    let count = operand_count(has_middle);
    put_value(stacks, count, value, false)
}

/// A binary operator. Constant time.
pub(crate) fn binary_operator(
    known: &Known,
    stacks: &mut Stacks,
    sign: Punct,
    token: TokenId,
) -> Result<(), NoMemory>
    ensures { OnOk result ((first last : ℕ) → Steps known.now
        (λ w st. steps.expr_step w st (exprs.Binary sign token first last))
        stacks.old stacks.new) }
{
    let first = value_at(known, stacks, 1);
    let second = value_at(known, stacks, 0);
    let value = binary(known.vars, sign, first, second, known.own(token));
    put_value(stacks, 2, value, false)
}

/// Whether an operator is a `&` that makes a pointer which carries another one: its operand came to its place by that, and some lattice
/// bounds accesses. Constant time.
pub fn is_carrying(known: &Known, sign: Punct, aims: bool) -> bool
    ensures { (w : World) → Shows known.now w → result ≡ vals.is_carrying w sign aims }
{
    match sign {
        Punct::Ampersand => aims && known.has_access(),
        _ => false,
    }
}

/// Whether a sign is `*`.
fn is_star(sign: Punct) -> bool
    ensures { result ≡ is_star sign }
{
    match sign {
        Punct::Star => true,
        _ => false,
    }
}

/// Whether the place of an operator is one that is only addressed.
fn is_come_by(sign: Punct, aims: bool) -> bool
    ensures { result ≡ (aims && is_star sign) }
{
    aims && is_star(sign)
}

/// An operator before its operand. Constant time.
pub(crate) fn prefix(
    known: &Known,
    stacks: &mut Stacks,
    sign: Punct,
    token: TokenId,
    aims: bool,
) -> Result<(), NoMemory>
    ensures { OnOk result ((last : ℕ) → Steps known.now
        (λ w st. steps.expr_step w st (exprs.Prefix sign token last aims)) stacks.old stacks.new) }
{
    let operand = stacks.val_at(known.vars, 0);
    let pointer = value(known.vars, &operand);
    stacks.carry(is_come_by(sign, aims), pointer);
    let val = known.prefix(token, sign, &operand, aims);
    stacks.put(1, &val, false)
}

/// `++` or `--` behind its operand. Constant time.
pub(crate) fn post(known: &Known, stacks: &mut Stacks) -> Result<(), NoMemory>
    ensures { OnOk result ((sign : Punct) (token first : ℕ) → Steps known.now
        (λ w st. steps.expr_step w st (exprs.Post sign token first)) stacks.old stacks.new) }
{
    let value = value_at(known, stacks, 0);
    put_value(stacks, 1, value, false)
}

/// That of two operands of `[ ]` which is a reference. Constant time.
pub fn indexed(vars: &VarTable, first: SkelId, second: SkelId) -> SkelId
    ensures { skel_of vars.now result ≡ if vals.is_ref (skel_of vars.now first)
        then skel_of vars.now first else skel_of vars.now second }
{
    if is_ref(vars, first) { first } else { second }
}

/// Whether `[ ]` takes an element of a vector, in wider C where neither operand is a reference. Constant time.
pub fn is_vector_index(known: &Known, first: SkelId, second: SkelId) -> bool
    ensures { (w : World) → Shows known.now w → result ≡ vals.is_vector_index w.spelling.wide
        (skel known.now first) (skel known.now second) }
{
    known.spelling.wide && !is_ref(known.vars, first) && !is_ref(known.vars, second)
}

/// What `[ ]` makes of a vector, or of a reference.
fn element(is_vector: bool, vector: &Operand, place: SkelId) -> Operand
    ensures { (known : Known) → val known result
        ≡ if is_vector then val known vector.now else vals.a_place (skel known place) }
{
    if is_vector {
        *vector
    } else {
        Operand::a_place(place)
    }
}

/// `[ ]`. Constant time.
pub(crate) fn index(known: &Known, stacks: &mut Stacks, aims: bool) -> Result<(), NoMemory>
    ensures { OnOk result ((token first last : ℕ) → Steps known.now
        (λ w st. steps.expr_step w st (exprs.Index token first last aims)) stacks.old stacks.new) }
{
    let first = value_at(known, stacks, 1);
    let second = value_at(known, stacks, 0);
    let is_vector = is_vector_index(known, first, second);
    let place = indexed(known.vars, first, second);
    let vector = stacks.val_at(known.vars, 1);
    let val = element(is_vector, &vector, place);
    stacks.carry(aims, place);
    stacks.put(2, &val, false)
}

/// What the end of a call makes of what is called. Constant time.
fn called(known: &Known, stacks: &Stacks, count: usize) -> SkelId
    ensures { skel known.now result
        ≡ vals.result (vals.contents (states.value_at count (state_of known.now stacks.now))) }
{
    let called = value_at(known, stacks, count);
    outcome(known.vars, contents(known.vars, called))
}

/// The end of a call with so many arguments. Constant time for each of them.
pub(crate) fn call(known: &Known, stacks: &mut Stacks, count: u32) -> Result<(), NoMemory>
    ensures { OnOk result ((token : ℕ) → Steps known.now
        (λ w st. steps.expr_step w st (exprs.Call token count)) stacks.old stacks.new) }
{
    let value = called(known, stacks, count as usize);
    stacks.leave_arguments();
    put_value(stacks, count as usize + 1, value, false)
}

/// What a pointer before `->` points at. Constant time.
pub(crate) fn arrow(known: &Known, stacks: &mut Stacks, aims: bool) -> Result<(), NoMemory>
    ensures { OnOk result ((token first last : ℕ) → Steps known.now
        (λ w st. steps.expr_step w st (exprs.Arrow token first last aims)) stacks.old stacks.new) }
{
    let pointer = value_at(known, stacks, 0);
    let held = contents(known.vars, pointer);
    stacks.carry(aims, pointer);
    put_value(stacks, 1, held, false)
}

/// A member, behind `.` or `->`. Linear in the members of its struct.
pub(crate) fn member(known: &Known, stacks: &mut Stacks, name: NameId) -> Result<(), NoMemory>
    ensures { OnOk result ((token member : ℕ) → Steps known.now
        (λ w st. steps.expr_step w st (exprs.Dot token member name)) stacks.old stacks.new) }
{
    let found = known.member(value_at(known, stacks, 0), name);
    put_place(stacks, 1, found)
}
