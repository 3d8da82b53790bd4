//! All stacks.

ghost use Rattle.std.specs.Prelude.{◌≡◌};
ghost use Rattle.expr_shapes.specs.ShapeStacks.Stacked.{nothing};

use crate::shape_stacks::stack::Stack;
use crate::shape_values::ExprShape;
use qual_base::{TokenId, TypeId};
use std::alloc::Global;
use std::marker::Model;

/// An operand of what comes: an expression, or a type that was named, or that of a member in an offset.
#[derive(Clone, Copy, PartialEq, Eq, Debug, Drop)]
pub enum Operand {
    Expression { shape: ExprShape, is_zero: bool },
    NamedType(Option<TypeId>),
}

/// A part of an initialiser in braces that is gone through: all of it, or a list in it with the type of what it initialises, if
/// it initialises anything.
///
/// `named` is what the designators of the next item name so far, where it has some.
#[derive(Clone, Copy, PartialEq, Eq, Debug, Drop)]
pub enum Braces {
    Whole(Option<TypeId>),
    Untargeted,
    Listed {
        ty: Option<TypeId>,
        is_first: bool,
        next: usize,
        named: Option<Option<TypeId>>,
    },
}

/// A declaration that is open, by the tokens of the name of the declarator that is read and of the one declared last.
#[derive(Clone, Copy, PartialEq, Eq, Debug, Drop)]
pub struct OpenDeclaration {
    pub name: Option<TokenId>,
    pub declared: Option<TokenId>,
}

/// The stacks of the loop. Clauses see their lists, each with the innermost first.
#[derive(Drop)]
pub struct Stacks {
    pub(crate) operands: Stack<Operand>,
    pub(crate) bases: Stack<usize>,
    pub(crate) braces: Stack<Braces>,
    pub(crate) declarations: Stack<OpenDeclaration>,
}

impl Model for Stacks {
    ghost use Rattle.expr_shapes.specs.ShapeStacks.Stacked.{Stacked};

    ghost Value = { Stacked };

    ghost view = { λ s. record {
      operands = s.operands;
      bases = s.bases;
      braces = s.braces;
      declarations = s.declarations;
    } };
}

impl Stacks {
    /// Nothing on any of them. Takes no memory.
    pub fn new(alloc: Global) -> Self
        ensures { result ≡ nothing }
    {
        Stacks {
            operands: Stack::new(alloc),
            bases: Stack::new(alloc),
            braces: Stack::new(alloc),
            declarations: Stack::new(alloc),
        }
    }
}
