//! Declarations that are open.

ghost use Rattle.std.specs.Prelude.{◌≡◌, OnOk, get_or};
ghost use Rattle.expr_shapes.specs.ShapeStacks.Stacked.{no_declaration};
ghost use Rattle.name_rules.specs.ShapeSteps.State as declarations;
ghost use Rattle.row_rules.specs.RowSteps.Rounds.{name_so_far};
ghost use Rattle.row_rules.specs.RowSteps.Steps as steps;
ghost use Rattle.skel_steps.specs.SkelStacks.Views.{Tables, state_in};

use crate::skel_stacks::stacks::Stacks;
use expr_shapes::shape_stacks::OpenDeclaration;
use qual_base::{NoMemory, TokenId};

impl Stacks {
    /// A declaration begins, behind its specifiers. Constant time but for growth.
    pub fn open(&mut self) -> Result<(), NoMemory>
        ensures { OnOk result ((t : Tables) → state_in t self.new
            ≡ steps.opened (state_in t self.old)) }
    {
        self.declarations.push(OpenDeclaration {
            name: None,
            declared: None,
        })
    }

    /// The innermost declaration ends. Constant time.
    #[tactic(auto, using(crate::proofs::SkelStacks::Lists::declarations_left))]
    pub fn close(&mut self)
        ensures { (t : Tables) → state_in t self.new ≡ steps.closed (state_in t self.old) }
    {
        self.declarations.take_off(1);
    }

    /// The innermost declaration, or one without names. Constant time.
    pub(crate) fn innermost(&self) -> OpenDeclaration
        ensures { result ≡ get_or self.now.declarations 0 no_declaration }
    {
        self.declarations.at(
            0,
            OpenDeclaration {
                name: None,
                declared: None,
            },
        )
    }

    /// The token of the name declared last by the innermost declaration. Constant time.
    #[tactic(auto, using(crate::proofs::SkelStacks::Lists::declared_found))]
    pub fn declared_last(&self) -> Option<TokenId>
        ensures { (t : Tables) → result
            ≡ declarations.declared_last (state_in t self.now).declarations }
    {
        self.innermost().declared
    }

    /// The token of the name that the innermost declaration has so far. Constant time.
    #[tactic(auto, using(crate::proofs::SkelStacks::Lists::name_found))]
    pub fn name_so_far(&self) -> Option<TokenId>
        ensures { (t : Tables) → result ≡ name_so_far (state_in t self.now).declarations }
    {
        self.innermost().name
    }

    /// The innermost declaration's declarator has this name. Constant time.
    #[tactic(auto, using(crate::proofs::SkelStacks::Lists::name_changed))]
    pub fn name(&mut self, token: TokenId) -> Result<(), NoMemory>
        ensures { OnOk result ((t : Tables) → state_in t self.new
            ≡ steps.with_declarations (declarations.changed (declarations.with_name token))
            (state_in t self.old)) }
    {
        let it = self.innermost();
        self.declarations.replace(OpenDeclaration {
            name: Some(token),
            declared: it.declared,
        })
    }

    /// The name of the innermost declaration's declarator is declared. Constant time.
    #[tactic(auto, using(crate::proofs::SkelStacks::Lists::declared_changed))]
    pub fn declare(&mut self) -> Result<(), NoMemory>
        ensures { OnOk result ((t : Tables) → state_in t self.new
            ≡ steps.with_declarations (declarations.changed declarations.with_declared)
            (state_in t self.old)) }
    {
        let it = self.innermost();
        self.declarations.replace(OpenDeclaration {
            name: None,
            declared: it.name,
        })
    }

    /// The name of the innermost declaration's declarator is a member's. Constant time.
    #[tactic(auto, using(crate::proofs::SkelStacks::Lists::member_changed))]
    pub fn leave_name(&mut self) -> Result<(), NoMemory>
        ensures { OnOk result ((t : Tables) → state_in t self.new
            ≡ steps.with_declarations (declarations.changed declarations.without_name)
            (state_in t self.old)) }
    {
        let it = self.innermost();
        self.declarations.replace(OpenDeclaration {
            name: None,
            declared: it.declared,
        })
    }
}
