//! Initialisers in braces.

ghost use Rattle.std.specs.Prelude.{◌≡◌, false, List, OnOk};
ghost use Rattle.expr_shapes.specs.ShapeStacks.Stacked.{is_last};
ghost use Rattle.type_table.specs.declared.row.TypeRow as row;
ghost use Rattle.expr_shapes.specs.ShapeValues.Views.{some_type};
ghost use Rattle.name_rules.specs.ShapeSteps.State as states;
ghost use Rattle.name_rules.specs.ShapeSteps.Steps as steps;
ghost use Rattle.name_rules.specs.Values.{some_target};
ghost use Rattle.expr_shapes.specs.ShapeStacks.Views.{state_in, braces_in};

use crate::shape_stacks::stacks::{Braces, Stacks};
use crate::shape_values::{ExprShape, ValueType, target};
use qual_base::{NoMemory, TypeId};
use type_table::TypeTable;

impl Stacks {
    /// The operands of an initialiser in braces begin. Constant time but for growth.
    #[tactic(auto, using(crate::proofs::ShapeStacks::Lists::length_viewed))]
    pub fn begin(&mut self) -> Result<(), NoMemory>
        ensures { OnOk result
            ((rows : List row.TypeRow) → state_in rows self.new
            ≡ steps.begun (state_in rows self.old)) }
    {
        let count = self.operands.len();
        self.bases.push(count)
    }

    /// What is gone through next. Constant time but for growth.
    pub fn enter(&mut self, it: &Braces) -> Result<(), NoMemory>
        ensures { OnOk result ((rows : List row.TypeRow)
            → state_in rows self.new
            ≡ steps.within (braces_in rows it.now) (state_in rows self.old)) }
    {
        self.braces.push(*it)
    }

    /// What is gone through; outside of all initialisers a list that initialises nothing. Constant time.
    #[tactic(auto, using(crate::proofs::ShapeStacks::Lists::first_found))]
    pub fn braces(&self) -> Braces
        ensures { (rows : List row.TypeRow) → braces_in rows result
            ≡ states.first_braces (state_in rows self.now).braces }
    {
        self.braces.at(0, Braces::Untargeted)
    }

    /// The innermost list ends. Constant time.
    #[tactic(auto, using(crate::proofs::ShapeStacks::Lists::braces_left))]
    pub fn leave_list(&mut self)
        ensures { (rows : List row.TypeRow) → state_in rows self.new
            ≡ steps.list_left (state_in rows self.old) }
    {
        self.braces.take_off(1);
    }

    /// How many operands are above those under the innermost initialiser in braces. Constant time.
    #[tactic(auto, using(crate::proofs::ShapeStacks::Lists::length_viewed, crate::proofs::ShapeStacks::Lists::base_found))]
    pub fn depth_below(&self) -> usize
        ensures { (rows : List row.TypeRow) → result ≡ states.depth_below (state_in rows self.now) }
    {
        self.operands.len().saturating_sub(self.bases.at(0, 0))
    }

    /// The list of a compound literal is gone through next. Constant time but for growth.
    pub fn enter_literal(&mut self) -> Result<(), NoMemory>
        ensures { OnOk result ((rows : List row.TypeRow)
            → state_in rows self.new
            ≡ steps.within (states.whole
            (states.type_at (states.depth_below (state_in rows self.old)) (state_in rows self.old)))
            (state_in rows self.old)) }
    {
        let ty = self.type_at(self.depth_below());
        self.enter(&Braces::Whole(ty))
    }

    /// The innermost initialiser in braces ends, with its operands. Constant time for each of these.
    pub fn leave(&mut self)
        ensures { (rows : List row.TypeRow) → state_in rows self.new
            ≡ steps.braces_left (states.operands_below (state_in rows self.old))
            (state_in rows self.old) }
    {
        let base = self.bases.at(0, 0);
        self.operands.keep(base);
        self.bases.take_off(1);
        self.braces.take_off(1);
    }

    /// A compound literal ends, with its operands and its type, and is an operand itself. Constant time for each operand.
    pub fn leave_literal(&mut self) -> Result<(), NoMemory>
        ensures { OnOk result ((rows : List row.TypeRow) → state_in rows self.new
            ≡ steps.braces_left (steps.literal_put (states.operands_below (state_in rows self.old)))
            (state_in rows self.old)) }
    {
        self.leave();
        let ty = self.type_at(0);
        self.put(1, &ExprShape::Place(ty), false)
    }

    /// The next item of the innermost list is behind us. Constant time.
    pub fn pass(&mut self) -> Result<(), NoMemory>
        ensures { OnOk result ((rows : List row.TypeRow)
            → state_in rows self.new ≡ steps.in_braces steps.with_item (state_in rows self.old)) }
    {
        let it = self.braces();
        if is_last(&it) {
            return Err(NoMemory);
        }
        let next = passed(&it);
        self.braces.replace(next)
    }

    /// The innermost list, behind a designator of an element. Constant time.
    pub fn index(&mut self, types: &TypeTable) -> Result<(), NoMemory>
        ensures { OnOk result
            (state_in types.now self.new
            ≡ steps.in_braces steps.with_index (state_in types.now self.old)) }
    {
        let it = self.braces();
        let next = indexed(types, &it);
        self.braces.replace(next)
    }
}

/// Whether the next member is the last that has a number.
fn is_last(it: &Braces) -> bool
    ensures { result ≡ is_last it.now }
{
    match it {
        Braces::Whole(_) => false,
        Braces::Untargeted => false,
        Braces::Listed { next, .. } => *next == usize::MAX,
    }
}

/// A list behind an item.
fn passed(it: &Braces) -> Braces
    requires { is_last it.now ≡ false }
    ensures { (rows : List row.TypeRow) → braces_in rows result
        ≡ steps.with_item (braces_in rows it.now) }
{
    match it {
        Braces::Whole(ty) => Braces::Whole(*ty),
        Braces::Untargeted => Braces::Untargeted,
        Braces::Listed {
            ty,
            next,
            named,
            ..
        } => {
            let next = match named {
                Some(_) => *next,
                None => *next + 1,
            };
            Braces::Listed {
                ty: *ty,
                is_first: false,
                next,
                named: None,
            }
        }
    }
}

/// What something of a type points at.
fn inside(types: &TypeTable, ty: &Option<TypeId>) -> Option<TypeId>
    ensures { some_type types.now result ≡ some_target (some_type types.now ty.now) }
{
    match ty {
        Some(ty) => target(types, &Some(ValueType::Of(*ty))),
        None => None,
    }
}

/// A list behind a designator of an element.
fn indexed(types: &TypeTable, it: &Braces) -> Braces
    ensures { braces_in types.now result ≡ steps.with_index (braces_in types.now it.now) }
{
    match it {
        Braces::Whole(ty) => Braces::Whole(*ty),
        Braces::Untargeted => Braces::Untargeted,
        Braces::Listed {
            ty,
            is_first,
            next,
            named,
        } => {
            let now = match named {
                Some(now) => inside(types, now),
                None => inside(types, ty),
            };
            Braces::Listed {
                ty: *ty,
                is_first: *is_first,
                next: *next,
                named: Some(now),
            }
        }
    }
}
