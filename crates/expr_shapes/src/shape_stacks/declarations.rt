//! Declarations that are open.

ghost use Rattle.std.specs.Prelude.{◌≡◌, List, OnOk, get_or};
ghost use Rattle.type_table.specs.declared.row.TypeRow as row;
ghost use Rattle.name_rules.specs.ShapeSteps.State as states;
ghost use Rattle.expr_shapes.specs.ShapeStacks.Stacked.{no_declaration};
ghost use Rattle.expr_shapes.specs.ShapeStacks.Views.{state_in};

use crate::shape_stacks::stacks::{OpenDeclaration, Stacks};
use qual_base::{NoMemory, TokenId};

impl Stacks {
    /// A declaration begins, behind its specifiers. Constant time but for growth.
    pub fn open(&mut self) -> Result<(), NoMemory>
        ensures { OnOk result
            ((rows : List row.TypeRow) → state_in rows self.new
            ≡ states.opened (state_in rows self.old)) }
    {
        self.declarations.push(OpenDeclaration {
            name: None,
            declared: None,
        })
    }

    /// The innermost declaration ends. Constant time.
    #[tactic(auto, using(crate::proofs::ShapeStacks::Lists::declarations_left))]
    pub fn close(&mut self)
        ensures { (rows : List row.TypeRow) → state_in rows self.new
            ≡ states.closed (state_in rows self.old) }
    {
        self.declarations.take_off(1);
    }

    /// The innermost declaration, or one without names. Constant time.
    pub fn innermost(&self) -> OpenDeclaration
        ensures { result ≡ get_or self.now.declarations 0 no_declaration }
    {
        self.declarations.at(
            0,
            OpenDeclaration {
                name: None,
                declared: None,
            },
        )
    }

    /// The token of the name declared last by the innermost declaration. Constant time.
    #[tactic(auto, using(crate::proofs::ShapeStacks::Lists::declared_found))]
    pub fn declared_last(&self) -> Option<TokenId>
        ensures { (rows : List row.TypeRow) → result
            ≡ states.declared_last (state_in rows self.now).declarations }
    {
        self.innermost().declared
    }

    /// The innermost declaration's declarator has this name. Constant time.
    #[tactic(auto, using(crate::proofs::ShapeStacks::Lists::name_changed))]
    pub fn name(&mut self, token: TokenId) -> Result<(), NoMemory>
        ensures { OnOk result ((rows : List row.TypeRow)
            → state_in rows self.new
            ≡ states.with_declarations (states.changed (states.with_name token))
            (state_in rows self.old)) }
    {
        let it = self.innermost();
        self.declarations.replace(OpenDeclaration {
            name: Some(token),
            declared: it.declared,
        })
    }

    /// The name of the innermost declaration's declarator is declared. Constant time.
    #[tactic(auto, using(crate::proofs::ShapeStacks::Lists::declared_changed))]
    pub fn declare(&mut self) -> Result<(), NoMemory>
        ensures { OnOk result ((rows : List row.TypeRow)
            → state_in rows self.new
            ≡ states.with_declarations (states.changed states.with_declared)
            (state_in rows self.old)) }
    {
        let it = self.innermost();
        self.declarations.replace(OpenDeclaration {
            name: None,
            declared: it.name,
        })
    }

    /// The name of the innermost declaration's declarator is a member's. Constant time.
    #[tactic(auto, using(crate::proofs::ShapeStacks::Lists::member_changed))]
    pub fn leave_name(&mut self) -> Result<(), NoMemory>
        ensures { OnOk result ((rows : List row.TypeRow)
            → state_in rows self.new
            ≡ states.with_declarations (states.changed states.without_name)
            (state_in rows self.old)) }
    {
        let it = self.innermost();
        self.declarations.replace(OpenDeclaration {
            name: None,
            declared: it.declared,
        })
    }
}
