//! Operands.

ghost use Rattle.std.specs.Prelude.{◌≡◌, List, OnOk};
ghost use Rattle.type_table.specs.declared.row.TypeRow as row;
ghost use Rattle.expr_shapes.specs.ShapeValues.Views.{shape_in, some_type, some_value_type};
ghost use Rattle.name_rules.specs.ShapeSteps.State as states;
ghost use Rattle.expr_shapes.specs.ShapeStacks.Views.{state_in, operand_in};

use crate::shape_stacks::stacks::{Operand, Stacks};
use crate::shape_values::{ExprShape, ValueType, value};
use qual_base::{NoMemory, TypeId};
use type_table::TypeTable;

impl Operand {
    /// What an expression is.
    fn shape(&self) -> ExprShape
        ensures { (rows : List row.TypeRow) → shape_in rows result
            ≡ states.shape_of_operand (operand_in rows self.now) }
    {
        match self {
            Operand::Expression { shape, .. } => *shape,
            Operand::NamedType(_) => ExprShape::Place(None),
        }
    }

    /// Whether it is a zero.
    fn is_zero(&self) -> bool
        ensures { (rows : List row.TypeRow) → result
            ≡ states.is_zero_operand (operand_in rows self.now) }
    {
        match self {
            Operand::Expression { is_zero, .. } => *is_zero,
            Operand::NamedType(_) => false,
        }
    }

    /// The type that was named.
    fn named_type(&self) -> Option<TypeId>
        ensures { (rows : List row.TypeRow) → some_type rows result
            ≡ states.type_of_operand (operand_in rows self.now) }
    {
        match self {
            Operand::Expression { .. } => None,
            Operand::NamedType(ty) => *ty,
        }
    }
}

impl Stacks {
    /// The operand with so many above it; past the bottom there are types that are not known. Constant time.
    #[tactic(auto, using(crate::proofs::ShapeStacks::Lists::operand_found))]
    fn operand_at(&self, depth: usize) -> Operand
        ensures { (rows : List row.TypeRow) → operand_in rows result
            ≡ states.operand_at depth (state_in rows self.now) }
    {
        self.operands.at(depth, Operand::NamedType(None))
    }

    /// What the expression with so many operands above it is. Constant time.
    pub fn shape_at(&self, depth: usize) -> ExprShape
        ensures { (rows : List row.TypeRow) → shape_in rows result
            ≡ states.shape_at depth (state_in rows self.now) }
    {
        self.operand_at(depth).shape()
    }

    /// The type of its value. Constant time.
    pub fn value_at(&self, types: &TypeTable, depth: usize) -> Option<ValueType>
        ensures { some_value_type types.now result
            ≡ states.value_at depth (state_in types.now self.now) }
    {
        value(types, &self.shape_at(depth))
    }

    /// Whether it is a zero. Constant time.
    pub fn is_zero_at(&self, depth: usize) -> bool
        ensures { (rows : List row.TypeRow) → result
            ≡ states.is_zero_at depth (state_in rows self.now) }
    {
        self.operand_at(depth).is_zero()
    }

    /// The type that was named with so many operands above it. Constant time.
    pub fn type_at(&self, depth: usize) -> Option<TypeId>
        ensures { (rows : List row.TypeRow) → some_type rows result
            ≡ states.type_at depth (state_in rows self.now) }
    {
        self.operand_at(depth).named_type()
    }

    /// An operand takes the place of so many. Constant time for each, but for growth.
    fn put_operand(&mut self, count: usize, it: &Operand) -> Result<(), NoMemory>
        ensures { OnOk result ((rows : List row.TypeRow)
            → state_in rows self.new
            ≡ states.operand_put count (operand_in rows it.now) (state_in rows self.old)) }
    {
        self.operands.take_off(count);
        self.operands.push(*it)
    }

    /// An expression takes the place of so many operands. Constant time for each, but for growth.
    pub fn put(&mut self, count: usize, shape: &ExprShape, is_zero: bool) -> Result<(), NoMemory>
        ensures { OnOk result ((rows : List row.TypeRow)
            → state_in rows self.new
            ≡ states.operand_put count (states.expression (shape_in rows shape.now) is_zero)
            (state_in rows self.old)) }
    {
        let shape = *shape;
        self.put_operand(count, &Operand::Expression { shape, is_zero })
    }

    /// A type takes the place of so many operands. Constant time for each, but for growth.
    pub fn put_type(&mut self, count: usize, ty: &Option<TypeId>) -> Result<(), NoMemory>
        ensures { OnOk result ((rows : List row.TypeRow)
            → state_in rows self.new
            ≡ states.operand_put count (states.named_type (some_type rows ty.now))
            (state_in rows self.old)) }
    {
        self.put_operand(count, &Operand::NamedType(*ty))
    }

    /// So many operands go. Constant time for each.
    pub fn drop_operands(&mut self, count: usize)
        ensures { (rows : List row.TypeRow) → state_in rows self.new
            ≡ states.dropped count (state_in rows self.old) }
    {
        self.operands.take_off(count);
    }
}
