//! Operands of an initialiser in braces that its items take.

ghost use Rattle.std.specs.Prelude.{◌≡◌, option_map, ◌≤◌, ◌-◌, length, reverse, take, List, [], OnOk, Some};
ghost use Rattle.type_table.specs.declared.row.TypeRow as row;
ghost use Rattle.qual_types.specs.Rows.{skel_of};
ghost use Rattle.row_rules.specs.Vals as vals;
ghost use Rattle.row_world.specs.Shown.{val_in};
ghost use Rattle.row_rules.specs.RowSteps.State as states;
ghost use Rattle.row_rules.specs.RowSteps.Steps as steps;
ghost use Rattle.skel_steps.specs.SkelStacks.Views.{Tables, tables, state_in, operand_in, skel_in, literal_in};

use crate::skel_stacks::stacks::{Braces, Operand, Stacks};
use expr_shapes::shape_stacks::Stack;
use qual_base::{NoMemory, SkelId};
use qual_types::VarTable;
use row_world::{Operand as Val, contents, nowhere};

impl Stacks {
    /// How many operands are above those under the innermost initialiser in braces. Constant time.
    #[tactic(auto, using(crate::proofs::SkelStacks::Lists::length_viewed, crate::proofs::SkelStacks::Lists::base_found))]
    pub(crate) fn depth_below(&self) -> usize
        ensures value { (t : Tables) → result ≡ states.depth_below (state_in t self.now) }
        ensures few { result ≤ length self.now.operands }
    {
        self.operands.len().saturating_sub(self.bases.at(0, 0))
    }

    /// The items of an initialiser in braces, which initialise this skeleton, begin to take its operands. Linear in the number
    /// of these, but for growth.
    pub fn go_through(&mut self, target: &Option<SkelId>) -> Result<(), NoMemory>
        ensures { OnOk result ((t : Tables) → state_in t self.new
            ≡ steps.gone_through (option_map (skel_in t) target.now) (state_in t self.old)) }
    {
        let count = self.depth_below();
        take_leaves(&self.operands, count, &mut self.leaves)?;
        self.braces.push(Braces::Whole(*target))
    }

    /// The items of a compound literal, which has this skeleton, begin to take its operands. Linear in the number of these,
    /// but for growth.
    pub fn go_through_literal(&mut self, vars: &VarTable, skel: SkelId) -> Result<(), NoMemory>
        ensures { OnOk result ((types : List row.TypeRow) → state_in (tables vars.now types)
            self.new ≡ steps.gone_through (Some (vals.contents (skel_of vars.now skel)))
            (record (state_in (tables vars.now types) self.old)
            { literal = skel_of vars.now skel })) }
    {
        self.literal = Some(skel);
        self.go_through(&Some(contents(vars, skel)))
    }

    /// The skeleton of the compound literal whose items are gone through. Constant time.
    fn literal(&self, vars: &VarTable) -> SkelId
        ensures { skel_of vars.now result ≡ literal_in (tables vars.now []) self.now.literal }
    {
        match self.literal {
            Some(skel) => skel,
            None => nowhere(vars),
        }
    }

    /// The pointer by which the place was come to that is only addressed. Constant time.
    pub fn carried(&self, vars: &VarTable) -> SkelId
        ensures { (types : List row.TypeRow) → skel_of vars.now result
            ≡ (state_in (tables vars.now types) self.now).carried }
    {
        match self.carried {
            Some(skel) => skel,
            None => nowhere(vars),
        }
    }

    /// A place that is only addressed is come to by this pointer, where it is one. Constant time.
    pub fn carry(&mut self, aims: bool, pointer: SkelId)
        ensures { (t : Tables) → state_in t self.new
            ≡ steps.carrying aims (skel_in t pointer) (state_in t self.old) }
    {
        if aims {
            self.carried = Some(pointer);
        }
    }

    /// The next operand that an item takes. Constant time.
    #[tactic(auto, using(crate::proofs::SkelStacks::Lists::operand_found))]
    fn leaf(&self) -> Operand
        ensures { (t : Tables) → operand_in t result
            ≡ states.first_operand (state_in t self.now).leaves }
    {
        self.leaves.at(0, Operand::NamedType(None))
    }

    /// The expression that it is; a type is a place of no type. Constant time.
    pub fn leaf_val(&self, vars: &VarTable) -> Val
        ensures { (types : List row.TypeRow) → val_in vars.now result
            ≡ states.val_of_operand
            (states.first_operand (state_in (tables vars.now types) self.now).leaves) }
    {
        self.leaf().val(vars)
    }

    /// Whether it is a zero. Constant time.
    pub fn leaf_is_zero(&self) -> bool
        ensures { (t : Tables) → result
            ≡ states.is_zero_operand (states.first_operand (state_in t self.now).leaves) }
    {
        self.leaf().is_zero()
    }

    /// An initialiser in braces ends, with its operands. Constant time for each of these.
    pub fn leave(&mut self)
        ensures { (t : Tables) → state_in t self.new
            ≡ steps.braces_left (states.operands_below (state_in t self.old))
            (state_in t self.old) }
    {
        let base = self.bases.at(0, 0);
        self.operands.keep(base);
        self.bases.take_off(1);
        self.braces.take_off(1);
        self.leaves.keep(0);
    }

    /// A compound literal ends, with its operands and its type, and is an operand itself. Constant time for each operand.
    pub fn leave_literal(&mut self, vars: &VarTable) -> Result<(), NoMemory>
        ensures { OnOk result ((types : List row.TypeRow) → state_in (tables vars.now types)
            self.new ≡ steps.braces_left
            (steps.literal_put (state_in (tables vars.now types) self.old).literal
            (states.operands_below (state_in (tables vars.now types) self.old)))
            (state_in (tables vars.now types) self.old)) }
    {
        let skel = self.literal(vars);
        self.leave();
        let val = Val {
            is_place: true,
            skel,
        };
        self.put(1, &val, false)
    }
}

/// The operands down to this depth, the deepest first.
#[tactic(auto, using(crate::proofs::SkelStacks::Lists::taken_more, crate::proofs::SkelStacks::Lists::none_kept))]
fn take_leaves(
    operands: &Stack<Operand>,
    count: usize,
    leaves: &mut Stack<Operand>,
) -> Result<(), NoMemory>
    requires { count ≤ length operands.now }
    ensures { OnOk result (leaves.new ≡ reverse (take count operands.now)) }
{
    leaves.keep(0);
    for depth in 0..count {
        leaves.push(operands.at(depth, Operand::NamedType(None)))?;
    }
    Ok(())
}
