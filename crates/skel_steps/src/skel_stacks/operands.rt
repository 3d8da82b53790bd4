//! Operands.

ghost use Rattle.std.specs.Prelude.{◌≡◌, option_map, List, OnOk};
ghost use Rattle.type_table.specs.declared.row.TypeRow as row;
ghost use Rattle.row_world.specs.Shown.{val_in};
ghost use Rattle.row_rules.specs.RowSteps.State as states;
ghost use Rattle.skel_steps.specs.SkelStacks.Views.{Tables, tables, state_in, operand_in, type_in};

use crate::skel_stacks::stacks::{Operand, Stacks};
use qual_base::{NoMemory, TypeId};
use qual_types::VarTable;
use row_world::{Operand as Val, nowhere};

impl Operand {
    /// What an expression is.
    pub(crate) fn val(&self, vars: &VarTable) -> Val
        ensures { (types : List row.TypeRow) → val_in vars.now result
            ≡ states.val_of_operand (operand_in (tables vars.now types) self.now) }
    {
        match self {
            Operand::Expression { val, .. } => *val,
            Operand::NamedType(_) => Val {
                is_place: true,
                skel: nowhere(vars),
            },
        }
    }

    /// Whether it is a zero.
    pub(crate) fn is_zero(&self) -> bool
        ensures { (t : Tables) → result ≡ states.is_zero_operand (operand_in t self.now) }
    {
        match self {
            Operand::Expression { is_zero, .. } => *is_zero,
            Operand::NamedType(_) => false,
        }
    }

    /// The type that was named.
    pub(crate) fn named_type(&self) -> Option<TypeId>
        ensures { (t : Tables) → option_map (type_in t) result
            ≡ states.type_of_operand (operand_in t self.now) }
    {
        match self {
            Operand::Expression { .. } => None,
            Operand::NamedType(ty) => *ty,
        }
    }
}

impl Stacks {
    /// The operand with so many above it; past the bottom there are types that are not known. Constant time.
    #[tactic(auto, using(crate::proofs::SkelStacks::Lists::operand_found))]
    fn operand_at(&self, depth: usize) -> Operand
        ensures { (t : Tables) → operand_in t result
            ≡ states.operand_at depth (state_in t self.now) }
    {
        self.operands.at(depth, Operand::NamedType(None))
    }

    /// The expression with so many operands above it; a type is a place of no type. Constant time.
    pub fn val_at(&self, vars: &VarTable, depth: usize) -> Val
        ensures { (types : List row.TypeRow) → val_in vars.now result
            ≡ states.val_at depth (state_in (tables vars.now types) self.now) }
    {
        self.operand_at(depth).val(vars)
    }

    /// Whether it is a zero. Constant time.
    pub fn is_zero_at(&self, depth: usize) -> bool
        ensures { (t : Tables) → result ≡ states.is_zero_at depth (state_in t self.now) }
    {
        self.operand_at(depth).is_zero()
    }

    /// The type that was named with so many operands above it. Constant time.
    pub fn type_at(&self, depth: usize) -> Option<TypeId>
        ensures { (t : Tables) → option_map (type_in t) result
            ≡ states.type_at depth (state_in t self.now) }
    {
        self.operand_at(depth).named_type()
    }

    /// The type that was named under the operands of the innermost initialiser in braces. Constant time.
    pub fn type_below(&self) -> Option<TypeId>
        ensures { (t : Tables) → option_map (type_in t) result
            ≡ states.type_of_operand
            (states.first_operand (states.operands_below (state_in t self.now))) }
    {
        self.type_at(self.depth_below())
    }

    /// An operand takes the place of so many. Constant time for each, but for growth.
    fn put_operand(&mut self, count: usize, it: &Operand) -> Result<(), NoMemory>
        ensures { OnOk result ((t : Tables) → state_in t self.new
            ≡ states.operand_put count (operand_in t it.now) (state_in t self.old)) }
    {
        self.operands.take_off(count);
        self.operands.push(*it)
    }

    /// An expression takes the place of so many operands. Constant time for each, but for growth.
    pub fn put(&mut self, count: usize, val: &Val, is_zero: bool) -> Result<(), NoMemory>
        ensures { OnOk result ((t : Tables) → state_in t self.new
            ≡ states.operand_put count (states.expression (val_in t.variables val.now) is_zero)
            (state_in t self.old)) }
    {
        let val = *val;
        self.put_operand(count, &Operand::Expression { val, is_zero })
    }

    /// A type that was named takes the place of so many operands. Constant time for each, but for growth.
    pub fn put_type(&mut self, count: usize, ty: &Option<TypeId>) -> Result<(), NoMemory>
        ensures { OnOk result ((t : Tables) → state_in t self.new
            ≡ states.operand_put count (states.named_type (option_map (type_in t) ty.now))
            (state_in t self.old)) }
    {
        self.put_operand(count, &Operand::NamedType(*ty))
    }

    /// So many operands go. Constant time for each.
    pub fn drop_operands(&mut self, count: usize)
        ensures { (t : Tables) → state_in t self.new ≡ states.dropped count (state_in t self.old) }
    {
        self.operands.take_off(count);
    }
}
