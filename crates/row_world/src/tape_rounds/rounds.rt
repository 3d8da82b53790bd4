//! What is begun and not at its end.

ghost use Rattle.std.specs.Prelude.{◌≡◌, ◌∷◌, IfOk, OnOk};
ghost use Rattle.row_rules.specs.RowSteps.Rounds as rules;
ghost use Rattle.row_world.specs.TapeRounds.Views.{naming_of, round_of};

use expr_shapes::shape_stacks::Stack;
use qual_base::{NoMemory, TokenId};
use std::alloc::Global;
use std::marker::Model;

/// What the name of a declarator is, by the list or the body that it stands in.
#[derive(Clone, Copy, PartialEq, Eq, Debug, Drop)]
pub enum Naming {
    /// A declared name or a member.
    Name,
    /// The parameter of a number of the function with a body whose name is at a token.
    OwnParam {
        function: Option<TokenId>,
        number: usize,
    },
    /// A parameter of another function.
    OtherParam,
    /// A parameter, by the number of its identifier, of the function with a body whose name is at a token.
    Identified {
        function: Option<TokenId>,
    },
}

/// A scope, a body or a list of parameters, or what gives no constraint.
#[derive(Clone, Copy, PartialEq, Eq, Debug, Drop)]
pub struct Round {
    pub naming: Naming,
    pub is_quiet: bool,
}

/// What is begun and not at its end, the token of the name of the function whose body this is, and whether some lattice
/// bounds accesses. Memory is linear in the depth.
///
/// A call that wants memory in vain leaves it as it may be, and of no more use.
#[derive(Drop)]
pub struct Rounds {
    around: Stack<Round>,
    pub(crate) body: Option<TokenId>,
    access: bool,
}

impl Model for Rounds {
    ghost use Rattle.std.specs.Prelude.{map};
    ghost use Rattle.row_rules.specs.RowSteps.Rounds as rules;
    ghost use Rattle.row_world.specs.TapeRounds.Views.{round_of};

    ghost Value = { rules.Rounds };

    ghost view = { λ s. record { around = map round_of s.around; body = s.body; access = s.access } };
}

impl Naming {
    /// What the name behind the next `,` is. For want of a number past the highest there is none.
    fn next(self) -> Result<Naming, NoMemory>
        ensures { IfOk result (λ it. naming_of it ≡ rules.next_naming (naming_of self)) }
    {
        match self {
            Naming::Name => Ok(Naming::Name),
            Naming::OwnParam { function, number } => {
                if number == usize::MAX {
                    return Err(NoMemory);
                }
                Ok(Naming::OwnParam {
                    function,
                    number: number + 1,
                })
            }
            Naming::OtherParam => Ok(Naming::OtherParam),
            Naming::Identified { function } => Ok(Naming::Identified { function }),
        }
    }

    /// What the name of a declarator is in a list of identifiers. Constant time.
    fn identified(self) -> Naming
        ensures { naming_of result ≡ rules.identified_naming (naming_of self) }
    {
        match self {
            Naming::Name => Naming::Name,
            Naming::OwnParam { function, .. } => Naming::Identified { function },
            Naming::OtherParam => Naming::OtherParam,
            Naming::Identified { function } => Naming::Identified { function },
        }
    }
}

impl Rounds {
    /// A unit begins with nothing around it, where some lattice bounds accesses or none does. Takes no memory.
    pub fn new(alloc: Global, access: bool) -> Self
        ensures { result ≡ rules.file access }
    {
        Rounds {
            around: Stack::new(alloc),
            body: None,
            access,
        }
    }

    /// The innermost that is begun. Constant time.
    #[tactic(auto, using(crate::proofs::TapeRounds::Innermost::innermost_found))]
    fn innermost(&self) -> Round
        ensures { round_of result ≡ rules.innermost self.now.around }
    {
        self.around.at(
            0,
            Round {
                naming: Naming::Name,
                is_quiet: false,
            },
        )
    }

    /// What the name of the next declarator is. Constant time.
    pub fn naming(&self) -> Naming
        ensures { naming_of result ≡ rules.naming self.now }
    {
        self.innermost().naming
    }

    /// Whether nothing here gives a constraint. Constant time.
    pub fn is_quiet(&self) -> bool
        ensures { result ≡ rules.is_quiet self.now }
    {
        self.innermost().is_quiet
    }

    /// Whether what is around the innermost gives no constraint. Constant time.
    #[tactic(auto, using(crate::proofs::TapeRounds::Innermost::outside_found))]
    pub fn is_quiet_outside(&self) -> bool
        ensures { result ≡ rules.is_quiet (rules.left self.now) }
    {
        let it = self.around.at(
            1,
            Round {
                naming: Naming::Name,
                is_quiet: false,
            },
        );
        it.is_quiet
    }

    /// Whether some lattice has an element that bounds accesses.
    pub fn has_access(&self) -> bool
        ensures { result ≡ self.now.access }
    {
        self.access
    }

    /// The token of the name of the function whose body this is. Constant time.
    pub fn body(&self) -> Option<TokenId>
        ensures { result ≡ self.now.body }
    {
        self.body
    }

    /// This is in the body of the function whose name is at a token, or in none. Constant time.
    pub(crate) fn set_body(&mut self, body: Option<TokenId>)
        ensures { self.new ≡ record self.old { body = body } }
    {
        self.body = body;
    }

    /// One more begins. Constant time but for growth.
    pub(crate) fn begin(&mut self, naming: Naming, is_quiet: bool) -> Result<(), NoMemory>
        ensures { OnOk result
            (self.new ≡ rules.with_round (naming_of naming) is_quiet self.old) }
    {
        self.around.push(Round { naming, is_quiet })
    }

    /// A scope or a body begins. Constant time but for growth.
    pub(crate) fn enter(&mut self) -> Result<(), NoMemory>
        ensures { OnOk result (self.new ≡ rules.entered self.old) }
    {
        let quiet = self.is_quiet();
        self.begin(Naming::Name, quiet)
    }

    /// What gives no constraint begins. Constant time but for growth.
    pub(crate) fn silence(&mut self) -> Result<(), NoMemory>
        ensures { OnOk result (self.new ≡ rules.silenced self.old) }
    {
        self.begin(Naming::Name, true)
    }

    /// The innermost ends. Constant time.
    #[tactic(auto, using(crate::proofs::TapeRounds::Innermost::innermost_left))]
    pub(crate) fn leave(&mut self)
        ensures { self.new ≡ rules.left self.old }
    {
        self.around.take_off(1);
    }

    /// The innermost list is one of identifiers. Constant time.
    #[tactic(auto, using(crate::proofs::TapeRounds::Innermost::innermost_identified))]
    pub(crate) fn identify(&mut self) -> Result<(), NoMemory>
        ensures { OnOk result (self.new ≡ rules.identified self.old) }
    {
        let it = self.innermost();
        self.around.replace(Round {
            naming: it.naming.identified(),
            is_quiet: it.is_quiet,
        })
    }

    /// The next parameter of the innermost list comes. Constant time.
    #[tactic(auto, using(crate::proofs::TapeRounds::Innermost::innermost_changed))]
    pub(crate) fn next_param(&mut self) -> Result<(), NoMemory>
        ensures { OnOk result (self.new ≡ rules.next_param self.old) }
    {
        let it = self.innermost();
        let naming = it.naming.next()?;
        self.around.replace(Round {
            naming,
            is_quiet: it.is_quiet,
        })
    }
}
