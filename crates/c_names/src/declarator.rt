//! Declarators, and what they declare (C99, 6.7.5 to 6.7.7).

ghost use Rattle.std.specs.Prelude.{◌≡◌, ◌≤◌, ◌<◌, ℕ, OnOk, length, option_map, List, []};
ghost use Rattle.tape_ops.specs.declared.op.Op.{Op};
ghost use Rattle.type_table.specs.Types.{CType};
ghost use Rattle.name_state.specs.NameTypes.Known.{Knows, Grows};
ghost use Rattle.name_rules.specs.Declaring.{own_where};
ghost use Rattle.name_rules.specs.Spellings.{place};
ghost use Rattle.name_rules.specs.NameSteps.Steps.{declaration, with_name, pointed, called_with, linked_some, parameters_begun, let_go, with_parameter, parameters_ended, name_declared, with_member, with_type_name, declarator_step};
ghost use Rattle.name_tables.specs.UnitSpelling.Spelled.{spelling_of};
ghost use Rattle.unit_shapes.specs.Views.{AreImplicit};
ghost use Rattle.c_names.specs.Shown.{state_of, state_at, IsShown};
ghost use Rattle.c_names.specs.Parameters.{parameter_added};
ghost use Rattle.name_state.specs.NameUses.Named.{named_of};

use crate::identifiers::Identifiers;
use crate::old::add_identifiers;
use crate::specifier::no_specifiers;
use crate::state::{OpenParameters, State};
use name_state::name_types::Types;
use name_state::name_uses::{
    Named, declare_member, declare_name, declare_parameter, name_type, untagged_number,
};
use name_tables::name_scopes::Place;
use name_tables::unit_spelling::Spelling;
use qual_base::{NameId, NoMemory, TokenId, TypeId};
use std::mem;
use tape_ops::{DeclrOp, Op};
use unit_shapes::ImplicitTypes;

impl State {
    /// The name of a declarator. Constant time.
    #[tactic(auto, unfolding(crate::specs::Shown::state_of))]
    fn set_name(&mut self, token: TokenId, name: NameId) -> Result<(), NoMemory>
        ensures { OnOk result
            ((t : ℕ → CType) (p : List Op) → state_of t p self.new ≡ with_name token name (state_of t p self.old)) }
    {
        match self.declarations.pop() {
            Some(mut declaration) => {
                declaration.name = Some(Named { token, name });
                self.declarations.push(declaration)
            }
            None => Ok(()),
        }
    }

    /// A pointer to the type so far, or an array of it. Constant time but for growth.
    #[tactic(auto, using(crate::proofs::Low::declared_low), unfolding(crate::specs::Shown::state_of))]
    fn point(&mut self, types: &mut Types) -> Result<(), NoMemory>
        requires { IsShown types.old self.old }
        ensures shown { OnOk result
            ((t : ℕ → CType) (p : List Op) → Knows t types.new → state_of t p self.new
            ≡ pointed (state_of t p self.old)) }
        ensures grown { OnOk result (Grows types.old types.new) }
    {
        let specifiers = mem::replace(&mut self.specifiers, no_specifiers(self.alloc));
        match self.declarations.pop() {
            Some(mut declaration) => {
                declaration.declared = types.pointer(
                    self.alloc,
                    specifiers.words,
                    declaration.declared,
                )?;
                self.declarations.push(declaration)
            }
            None => Ok(()),
        }
    }

    /// A function that gives the type so far. Constant time but for growth.
    #[tactic(auto, using(crate::proofs::Low::declared_low, crate::proofs::Low::params_low), unfolding(crate::specs::Shown::state_of))]
    fn call(&mut self, types: &mut Types, has_ellipsis: bool) -> Result<(), NoMemory>
        requires { IsShown types.old self.old }
        ensures shown { OnOk result
            ((t : ℕ → CType) (p : List Op) → Knows t types.new → state_of t p self.new
            ≡ called_with has_ellipsis (state_of t p self.old)) }
        ensures grown { OnOk result (Grows types.old types.new) }
    {
        let specifiers = mem::replace(&mut self.specifiers, no_specifiers(self.alloc));
        let params = match self.finished.pop() {
            Some(params) => params,
            None => Vec::new(self.alloc),
        };
        match self.declarations.pop() {
            Some(mut declaration) => {
                declaration.declared = types.function(
                    self.alloc,
                    params,
                    has_ellipsis,
                    specifiers.words,
                    declaration.declared,
                )?;
                self.declarations.push(declaration)
            }
            None => Ok(()),
        }
    }

    /// The object or function of the file that has the name of the innermost declaration. Constant time.
    #[tactic(auto, unfolding(crate::specs::Shown::state_of))]
    fn linked(&self, spelling: &Spelling) -> Option<Place>
        ensures { (t : ℕ → CType) → result
            ≡ linked_some (spelling_of spelling.now) (declaration (state_of t [] self.now)).name
            (state_of t [] self.now).names }
    {
        match self.declarations.top() {
            Some(declaration) => match &declaration.name {
                Some(it) => Some(
                    self.names
                        .linked(spelling.key(it.name), &spelling.place(it.token)),
                ),
                None => None,
            },
            None => None,
        }
    }

    /// A list of parameters begins, with a scope. Constant time but for growth.
    #[tactic(auto, unfolding(crate::specs::Shown::state_of))]
    fn begin_parameters(&mut self, spelling: &Spelling, is_own: bool) -> Result<(), NoMemory>
        ensures { OnOk result ((t : ℕ → CType) (p : List Op) → state_of t p self.new
            ≡ parameters_begun (own_where is_own (linked_some (spelling_of spelling.now)
            (declaration (state_of t p self.old)).name (state_of t p self.old).names))
            (state_of t p self.old)) }
    {
        let own = if is_own { self.linked(spelling) } else { None };
        self.names.enter()?;
        self.parameters.push(OpenParameters {
            own,
            types: Vec::new(self.alloc),
            identifiers: Identifiers::new(self.alloc),
        })
    }

    /// One more parameter, of this name and type. Constant time but for growth.
    #[tactic(auto, using(crate::proofs::Low::map_more, crate::proofs::Low::map_length), unfolding(crate::specs::Shown::state_of))]
    fn push_parameter(
        &mut self,
        spelling: &Spelling,
        types: &mut Types,
        name: &Option<Named>,
        declared: TypeId,
    ) -> Result<(), NoMemory>
        requires { declared < length types.old }
        ensures shown { OnOk result ((t : ℕ → CType) (p : List Op) → Knows t types.new → state_of t p self.new
            ≡ parameter_added (spelling_of spelling.now) (option_map named_of name.now)
            (t declared) (state_of t p self.old)) }
        ensures grown { OnOk result (Grows types.old types.new) }
    {
        let ty = types.decayed(self.alloc, declared)?;
        match self.parameters.pop() {
            Some(mut parameters) => {
                let number = parameters.types.len();
                declare_parameter(
                    &mut self.names,
                    spelling,
                    types,
                    name,
                    number,
                    &parameters.own,
                    ty,
                )?;
                parameters.types.push(ty)?;
                self.parameters.push(parameters)?;
                Ok(())
            }
            None => {
                declare_parameter(&mut self.names, spelling, types, name, 0, &None, ty)?;
                Ok(())
            }
        }
    }

    /// The next parameter. Constant time but for growth.
    #[tactic(auto, using(crate::proofs::Low::declared_low), unfolding(crate::specs::Shown::state_of))]
    fn add_parameter(&mut self, spelling: &Spelling, types: &mut Types) -> Result<(), NoMemory>
        requires { IsShown types.old self.old }
        ensures shown { OnOk result
            ((t : ℕ → CType) (p : List Op) → Knows t types.new → state_of t p self.new
            ≡ with_parameter (spelling_of spelling.now) (state_of t p self.old)) }
        ensures grown { OnOk result (Grows types.old types.new) }
    {
        match self.declarations.pop() {
            Some(declaration) => {
                self.push_parameter(spelling, types, &declaration.name, declaration.declared)?;
                Ok(())
            }
            None => {
                let ty = types.base();
                self.push_parameter(spelling, types, &None, ty)?;
                Ok(())
            }
        }
    }

    /// A list of parameters ends, and its scope. Constant time but for growth, and for the scope.
    #[tactic(auto, unfolding(crate::specs::Shown::state_of))]
    fn end_parameters(&mut self, spelling: &Spelling, types: &Types) -> Result<(), NoMemory>
        ensures { OnOk result ((t : ℕ → CType) (p : List Op) → Knows t types.now → state_of t p self.new
            ≡ parameters_ended (spelling_of spelling.now) (state_of t p self.old)) }
    {
        match self.parameters.pop() {
            Some(parameters) => {
                let mut own_types = parameters.types;
                let base = types.base();
                add_identifiers(
                    &mut self.names,
                    spelling,
                    base,
                    parameters.identifiers.as_slice(),
                    &mut own_types,
                )?;
                self.names.keep(&parameters.own);
                self.finished.push(own_types)
            }
            None => {
                self.names.leave();
                self.finished.push(Vec::new(self.alloc))
            }
        }
    }

    /// The declarator declares its name. Linear in the storage words, and constant time but for growth otherwise.
    #[tactic(auto, using(crate::proofs::Low::declared_low), unfolding(crate::specs::Shown::state_of))]
    pub(crate) fn declare(&mut self, spelling: &Spelling, types: &Types) -> Result<(), NoMemory>
        requires { IsShown types.now self.old }
        ensures { OnOk result
            ((t : ℕ → CType) (p : List Op) → Knows t types.now → state_of t p self.new
            ≡ name_declared (spelling_of spelling.now) (state_of t p self.old)) }
    {
        match self.declarations.pop() {
            Some(mut declaration) => {
                let untagged = untagged_number(types, declaration.is_untagged, declaration.ty);
                declare_name(
                    &mut self.names,
                    spelling,
                    types,
                    &untagged,
                    &declaration.name,
                    &declaration.storage,
                    declaration.declared,
                )?;
                declaration.is_untagged = false;
                declaration.name = None;
                declaration.declared = declaration.ty;
                self.declarations.push(declaration)
            }
            None => Ok(()),
        }
    }

    /// The declarator is a member of the innermost body. Constant time but for growth.
    #[tactic(auto, using(crate::proofs::Low::declared_low), unfolding(crate::specs::Shown::state_of))]
    fn declare_member(&mut self, spelling: &Spelling, types: &Types) -> Result<(), NoMemory>
        requires { IsShown types.now self.old }
        ensures { OnOk result
            ((t : ℕ → CType) (p : List Op) → Knows t types.now → state_of t p self.new
            ≡ with_member (spelling_of spelling.now) (state_of t p self.old)) }
    {
        let number = self.members_of();
        match self.declarations.pop() {
            Some(mut declaration) => {
                declare_member(
                    &mut self.names,
                    spelling,
                    types,
                    &declaration.name,
                    number,
                    declaration.declared,
                )?;
                declaration.name = None;
                declaration.declared = declaration.ty;
                self.declarations.push(declaration)
            }
            None => Ok(()),
        }
    }

    /// A type name. Constant time but for growth.
    #[tactic(auto, using(crate::proofs::Low::declared_low), unfolding(crate::specs::Shown::state_of))]
    fn name_type(&mut self, types: &Types, at: &Place) -> Result<(), NoMemory>
        requires { IsShown types.now self.old }
        ensures { OnOk result
            ((t : ℕ → CType) (p : List Op) → Knows t types.now → state_of t p self.new
            ≡ with_type_name at.now (state_of t p self.old)) }
    {
        match self.declarations.pop() {
            Some(declaration) => name_type(&mut self.names, types, at, declaration.declared),
            None => name_type(&mut self.names, types, at, types.base()),
        }
    }

    /// A declaration ends. Constant time.
    #[tactic(auto, unfolding(crate::specs::Shown::state_of))]
    fn let_go(&mut self)
        ensures { (t : ℕ → CType) (p : List Op) → state_of t p self.new ≡ let_go (state_of t p self.old) }
    {
        let _declaration = self.declarations.pop();
    }

    /// What a part of a declarator does.
    pub(crate) fn declarator(
        &mut self,
        spelling: &Spelling,
        types: &mut Types,
        implicit: &ImplicitTypes,
        tape: &[Op],
        at: usize,
        op: DeclrOp,
    ) -> Result<(), NoMemory>
        requires shown { IsShown types.old self.old }
        requires implicit { AreImplicit types.old implicit.now }
        requires within { at ≤ length tape.now }
        ensures shown { OnOk result
            ((t : ℕ → CType) → Knows t types.new → state_at t tape.now at self.new
            ≡ declarator_step (spelling_of spelling.now) (state_at t tape.now at self.old) op) }
        ensures grown { OnOk result (Grows types.old types.new) }
    {
        match op {
            DeclrOp::DeclName { token, name } => self.set_name(token, name),
            DeclrOp::ParamsBegin { is_own } => self.begin_parameters(spelling, is_own),
            DeclrOp::Param => self.add_parameter(spelling, types),
            DeclrOp::ParamsEnd => self.end_parameters(spelling, types),
            DeclrOp::Pointer => self.point(types),
            DeclrOp::Array => self.point(types),
            DeclrOp::Function { has_ellipsis } => self.call(types, has_ellipsis),
            DeclrOp::Declare => self.declare(spelling, types),
            DeclrOp::AutoBegin => self.begin_part(at),
            DeclrOp::AutoEnd { token } => {
                self.end_auto(spelling, types, implicit, tape, at, token)
            }
            DeclrOp::Identifier { token, name } => self.add_identifier(spelling, token, name),
            DeclrOp::OldParam => self.declare_identifier(spelling, types),
            DeclrOp::Member => self.declare_member(spelling, types),
            DeclrOp::TypeName { first } => self.name_type(types, &spelling.place(first)),
            DeclrOp::DeclarationEnd => {
                self.let_go();
                Ok(())
            }
        }
    }
}
