//! All stacks.

ghost use Rattle.std.specs.Prelude.{◌≡◌};
ghost use Rattle.skel_steps.specs.SkelStacks.Stacked.{nothing};

use expr_shapes::shape_stacks::{OpenDeclaration, Stack};
use qual_base::{SkelId, TypeId};
use row_world::Operand as Val;
use row_world::tape_rounds::Rounds;
use std::alloc::Global;
use std::marker::Model;

/// An operand of what comes: an expression, or a type that was named.
#[derive(Clone, Copy, PartialEq, Eq, Debug, Drop)]
pub enum Operand {
    Expression { val: Val, is_zero: bool },
    NamedType(Option<TypeId>),
}

/// A part of an initialiser in braces that is gone through: all of it, with the skeleton that it initialises, if there is
/// one; a list of nothing; or a list that initialises a skeleton.
///
/// `next` is the number of the next member, and `named` what the designators of the next item name so far, where it has
/// some.
#[derive(Clone, Copy, PartialEq, Eq, Debug, Drop)]
pub enum Braces {
    Whole(Option<SkelId>),
    Untargeted,
    Listed {
        skel: SkelId,
        is_first: bool,
        next: usize,
        named: Option<SkelId>,
    },
}

/// The stacks of the loop. Clauses see their lists, each with the innermost first, and the operands that items of an
/// initialiser in braces have not taken in the order of the text.
#[derive(Drop)]
pub struct Stacks {
    pub(crate) operands: Stack<Operand>,
    pub(crate) bases: Stack<usize>,
    pub(crate) braces: Stack<Braces>,
    pub(crate) leaves: Stack<Operand>,
    pub(crate) literal: Option<SkelId>,
    pub(crate) carried: Option<SkelId>,
    pub(crate) declarations: Stack<OpenDeclaration>,
    pub(crate) rounds: Rounds,
    pub(crate) passed: u32,
}

impl Model for Stacks {
    ghost use Rattle.skel_steps.specs.SkelStacks.Stacked.{Stacked};

    ghost Value = { Stacked };

    ghost view = { λ s. record {
      operands = s.operands;
      bases = s.bases;
      braces = s.braces;
      leaves = s.leaves;
      literal = s.literal;
      carried = s.carried;
      declarations = s.declarations;
      rounds = s.rounds;
      passed = s.passed;
    } };
}

impl Stacks {
    /// Nothing on any of them. Takes no memory.
    pub fn new(alloc: Global) -> Self
        ensures { result ≡ nothing }
    {
        Stacks {
            operands: Stack::new(alloc),
            bases: Stack::new(alloc),
            braces: Stack::new(alloc),
            leaves: Stack::new(alloc),
            literal: None,
            carried: None,
            declarations: Stack::new(alloc),
            rounds: Rounds::new(alloc, false),
            passed: 0,
        }
    }
}
