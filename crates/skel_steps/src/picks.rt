//! Choices and selections by a type.

ghost use Rattle.std.specs.Prelude.{◌≡◌, ◌<◌, ◌-◌, ◌∷◌, ◌++◌, [], ℕ, suc, List, OnOk};
ghost use Rattle.tape_ops.specs.declared.form.FormOp.TheVariants as forms;
ghost use Rattle.qual_types.specs.declared.row.VarRow as row;
ghost use Rattle.name_rules.specs.ShapeSteps.Steps.{twice};
ghost use Rattle.row_rules.specs.Worlds.{World};
ghost use Rattle.row_rules.specs.Vals as vals;
ghost use Rattle.row_rules.specs.RowSteps.Steps as steps;
ghost use Rattle.row_world.specs.Shown.{Shows, skel, val, val_in};
ghost use Rattle.skel_steps.specs.Picks.{IsPickedVal, candidate_in, more_than, first_by, is_several, are_several, fresh_by, value_by, pick_by, with_candidate};
ghost use Rattle.skel_steps.specs.Stepping.{Steps, state_of};

use crate::skel_stacks::Stacks;
use qual_base::{NoMemory, SkelId, TokenId};
use row_world::{Known, Operand, nowhere, value};

/// How many there are of something.
#[derive(Clone, Copy)]
enum Count {
    Nothing,
    One,
    Several,
}

/// With one more.
fn more(count: Count) -> Count
    ensures { result ≡ more_than count }
{
    match count {
        Count::Nothing => Count::One,
        Count::One | Count::Several => Count::Several,
    }
}

/// The first of so many, behind one more.
fn first(count: Count, first: &Operand, it: &Operand) -> Operand
    ensures { (rows : List row.VarRow) → val_in rows result
        ≡ first_by count (val_in rows first.now) (val_in rows it.now) }
{
    match count {
        Count::Nothing => *it,
        Count::One | Count::Several => *first,
    }
}

/// Whether there are several.
fn are_several(count: Count) -> bool
    ensures { result ≡ are_several count }
{
    match count {
        Count::Nothing | Count::One => false,
        Count::Several => true,
    }
}

/// Whether several are left, by how many are no zeros and how many there are.
fn fresh(others: Count, count: Count) -> bool
    ensures { result ≡ fresh_by others count }
{
    match others {
        Count::Nothing => are_several(count),
        Count::One => false,
        Count::Several => true,
    }
}

/// The candidates of a pick so far: how many there are, and how many of them are no zeros; and the first of all and of those.
#[derive(Clone, Copy)]
pub struct PickedVal {
    count: Count,
    others: Count,
    first: Operand,
    first_other: Operand,
}

impl PickedVal {
    /// Of no candidates.
    fn new(known: &Known) -> Self
        ensures { IsPickedVal known.now.vars.now [] result }
    {
        PickedVal {
            count: Count::Nothing,
            others: Count::Nothing,
            first: Operand::a_value(nowhere(known.vars)),
            first_other: Operand::a_value(nowhere(known.vars)),
        }
    }

    /// One more candidate. Constant time.
    fn add(&mut self, val: &Operand, is_zero: bool)
        ensures { (rows : List row.VarRow) (all : List vals.Candidate) → IsPickedVal rows all
            self.old → IsPickedVal rows (all ++ candidate_in rows val.now is_zero ∷ []) self.new }
    {
        self.first = first(self.count, &self.first, val);
        self.count = more(self.count);
        if !is_zero {
            self.first_other = first(self.others, &self.first_other, val);
            self.others = more(self.others);
        }
    }

    /// Whether several candidates are left, so that the pick has a value of its own. Constant time.
    pub fn is_fresh(&self) -> bool
        ensures { (rows : List row.VarRow) (all : List vals.Candidate) → IsPickedVal rows all
            self.now → result ≡ is_several (vals.left_of all) }
    {
        fresh(self.others, self.count)
    }

    /// The value of several candidates. Constant time.
    fn value(&self, known: &Known, own: SkelId) -> SkelId
        ensures { skel known.now result ≡ value_by self.now.others (skel known.now own)
            (vals.value (val known.now self.now.first_other)) }
    {
        match self.others {
            Count::Nothing | Count::Several => own,
            Count::One => value(known.vars, &self.first_other),
        }
    }

    /// What is picked, by a fresh value. Constant time.
    fn val_by(&self, known: &Known, own: SkelId) -> Operand
        ensures { val known.now result ≡ pick_by self.now.count self.now.others (skel known.now own)
            (val known.now self.now.first) (val known.now self.now.first_other) }
    {
        match self.count {
            Count::Nothing => Operand::a_value(own),
            Count::One => self.first,
            Count::Several => Operand::a_value(self.value(known, own)),
        }
    }

    /// The operand that the pick is, whose own value begins at this token. Constant time.
    fn val(&self, known: &Known, token: TokenId) -> Operand
        ensures { (w : World) → Shows known.now w → (all : List vals.Candidate)
            → IsPickedVal known.now.vars.now all self.now
            → val known.now result ≡ vals.pick_of (vals.own w token) all }
    {
        self.val_by(known, known.own(token))
    }
}

/// Twice a number.
fn twice(count: u32) -> usize
    ensures { result ≡ twice count }
{
    2 * count as usize
}

/// Adds the expression with so many operands above it, where it is a candidate. Constant time.
fn add_where(picked: &mut PickedVal, is: bool, known: &Known, stacks: &Stacks, depth: usize)
    ensures { (all : List vals.Candidate) → IsPickedVal known.now.vars.now all picked.old
        → IsPickedVal known.now.vars.now (with_candidate is all
        (steps.candidate_at depth (state_of known.now stacks.now))) picked.new }
{
    if is {
        picked.add(&stacks.val_at(known.vars, depth), stacks.is_zero_at(depth));
    }
}

/// The candidates of a choice, whose expressions are on the stack. Constant time.
pub fn chosen(known: &Known, stacks: &Stacks) -> PickedVal
    ensures { IsPickedVal known.now.vars.now (steps.chosen (state_of known.now stacks.now)) result }
{
    let mut picked = PickedVal::new(known);
    add_where(&mut picked, true, known, stacks, 1);
    add_where(&mut picked, true, known, stacks, 0);
    picked
}

/// How many operands are above the expression of an association, by its number among so many.
pub fn depth_of(count: u32, number: u32) -> usize
    requires { number < count }
    ensures { result ≡ twice (count - suc number) }
{
    twice(count - 1 - number)
}

/// The candidates of the selection at a token, of so many associations, which are on the stack. Linear in their number.
pub fn selected(known: &Known, stacks: &Stacks, token: TokenId, count: u32) -> PickedVal
    ensures { (w : World) → Shows known.now w → IsPickedVal known.now.vars.now
        (steps.selected w token 0 count (state_of known.now stacks.now)) result }
{
    let mut picked = PickedVal::new(known);
    for number in 0..count {
        let is = known.is_candidate(token, number as usize);
        add_where(&mut picked, is, known, stacks, depth_of(count, number));
    }
    picked
}

/// The end of a choice. Constant time.
pub(crate) fn choose(known: &Known, stacks: &mut Stacks, token: TokenId) -> Result<(), NoMemory>
    ensures { OnOk result (Steps known.now
        (λ w st. steps.form_step w st (forms.Choose token)) stacks.old stacks.new) }
{
    let val = chosen(known, stacks).val(known, token);
    stacks.put(2, &val, false)
}

/// The end of a selection of so many associations. Linear in them.
pub(crate) fn select(
    known: &Known,
    stacks: &mut Stacks,
    token: TokenId,
    count: u32,
) -> Result<(), NoMemory>
    ensures { OnOk result (Steps known.now
        (λ w st. steps.form_step w st (forms.Generic token count)) stacks.old stacks.new) }
{
    let val = selected(known, stacks, token, count).val(known, token);
    stacks.put(twice(count) + 1, &val, false)
}
