//! Specifiers (C99, 6.7.1 to 6.7.3).

ghost use Rattle.std.specs.Prelude.{◌≡◌, ◌≤◌, ◌<◌, ℕ, OnOk, length, List, []};
ghost use Rattle.tape_ops.specs.declared.op.Op.{Op};
ghost use Rattle.type_table.specs.Types.{CType};
ghost use Rattle.name_state.specs.NameTypes.Known.{Knows, Grows, so_far_type};
ghost use Rattle.name_rules.specs.Declaring.{tag_type, tag_used, tag_begun, untagged_begun};
ghost use Rattle.name_rules.specs.NameSteps.State.{no_specifiers};
ghost use Rattle.name_rules.specs.NameSteps.Steps.{body, declaration, with_type, with_word, untagged_by, without_tag, with_tag, with_body, body_ended, specifiers_ended, with_unnamed_member, specifier_step};
ghost use Rattle.name_tables.specs.UnitSpelling.Spelled.{spelling_of};
ghost use Rattle.unit_shapes.specs.Views.{AreImplicit};
ghost use Rattle.c_names.specs.Shown.{state_of, state_at, specifiers_of, IsShown};

use crate::state::{OpenBody, OpenDeclaration, Specifiers, State};
use name_state::name_types::{SoFar, Types};
use name_state::name_uses::{
    Begun, begin_tag, begin_untagged, declare_enumerator, declare_unnamed, type_by, use_tag,
};
use name_tables::name_scopes::Place;
use name_tables::unit_spelling::Spelling;
use qual_base::{NameId, NoMemory, Numbered, StructId, TokenId, TypeId};
use std::alloc::Global;
use std::mem;
use tape_ops::{Op, SpecOp, TagKind};
use unit_shapes::ImplicitTypes;

/// Specifiers of which no word was read. Takes no memory.
pub(crate) fn no_specifiers(alloc: Global) -> Specifiers
    ensures { (t : ℕ → CType) → specifiers_of t result ≡ no_specifiers }
{
    Specifiers {
        so_far: SoFar::Base,
        words: Vec::new(alloc),
        storage: Vec::new(alloc),
        is_untagged: false,
    }
}

/// Whether a struct or union without a tag is a word of specifiers, behind a body without a tag of this kind.
fn untagged_by(kind: TagKind, known: bool) -> bool
    ensures { result ≡ untagged_by kind known }
{
    match kind {
        TagKind::Struct | TagKind::Union => true,
        TagKind::Enum => known,
    }
}

/// The type of specifiers with a tag: an enumeration is an integer type.
fn tag_type(kind: TagKind, number: StructId, so_far: &SoFar) -> SoFar
    ensures { (t : ℕ → CType) → so_far_type t result
        ≡ tag_type kind number (so_far_type t so_far.now) }
{
    match kind {
        TagKind::Struct | TagKind::Union => SoFar::Struct(number),
        TagKind::Enum => *so_far,
    }
}

impl State {
    /// An annotation word, or another qualifier. Constant time but for growth.
    #[tactic(auto, unfolding(crate::specs::Shown::state_of))]
    fn add_word(&mut self, spelling: &Spelling, token: TokenId) -> Result<(), NoMemory>
        ensures { OnOk result
            ((t : ℕ → CType) (p : List Op) → state_of t p self.new
            ≡ with_word (spelling_of spelling.now) token (state_of t p self.old)) }
    {
        if spelling.annotates(token) {
            self.specifiers.words.push(spelling.place(token))?;
        }
        Ok(())
    }

    /// The type of a tag without a body. Takes constant time a scope that is open, but for growth.
    #[tactic(auto, unfolding(crate::specs::Shown::state_of))]
    fn add_tag(
        &mut self,
        spelling: &Spelling,
        is_alone: bool,
        kind: TagKind,
        token: TokenId,
        name: NameId,
    ) -> Result<(), NoMemory>
        ensures { OnOk result ((t : ℕ → CType) (p : List Op) → state_of t p self.new
            ≡ with_tag kind (tag_used (spelling_of spelling.now) is_alone kind token name
            (state_of t p self.old).names) (state_of t p self.old)) }
    {
        let number = use_tag(&mut self.names, spelling, is_alone, kind, token, name)?;
        self.specifiers.so_far = tag_type(kind, number, &self.specifiers.so_far);
        Ok(())
    }

    /// A body is a word of the specifiers, and begins. Constant time but for growth.
    #[tactic(auto, unfolding(crate::specs::Shown::state_of))]
    fn open_body(&mut self, kind: TagKind, begun: &Begun) -> Result<(), NoMemory>
        ensures { OnOk result ((t : ℕ → CType) (p : List Op) → state_of t p self.new
            ≡ with_body kind (record {
              number = begun.now.number;
              members_of = begun.now.members_of;
              names = (state_of t p self.old).names;
            }) (state_of t p self.old)) }
    {
        let mut outer = mem::replace(&mut self.specifiers, no_specifiers(self.alloc));
        outer.so_far = tag_type(kind, begun.number, &outer.so_far);
        self.bodies.push(OpenBody {
            outer,
            members_of: begun.members_of,
        })
    }

    /// The body of a tag begins. Constant time but for growth.
    #[tactic(auto, unfolding(crate::specs::Shown::state_of))]
    fn begin_tag(
        &mut self,
        spelling: &Spelling,
        kind: TagKind,
        token: TokenId,
        name: NameId,
    ) -> Result<(), NoMemory>
        ensures { OnOk result ((t : ℕ → CType) (p : List Op) → state_of t p self.new
            ≡ with_body kind (tag_begun (spelling_of spelling.now) kind token name
            (state_of t p self.old).names) (state_of t p self.old)) }
    {
        let begun = begin_tag(&mut self.names, spelling, kind, token, name)?;
        self.open_body(kind, &begun)
    }

    /// A body without a tag begins. Constant time but for growth.
    #[tactic(auto, unfolding(crate::specs::Shown::state_of))]
    fn begin_untagged(&mut self, kind: TagKind, at: &Place) -> Result<(), NoMemory>
        ensures { OnOk result ((t : ℕ → CType) (p : List Op) → state_of t p self.new
            ≡ with_body kind (untagged_begun at.now kind (state_of t p self.old).names)
            (without_tag kind (state_of t p self.old))) }
    {
        let begun = begin_untagged(&mut self.names, kind, at)?;
        self.specifiers.is_untagged = untagged_by(kind, self.specifiers.is_untagged);
        self.open_body(kind, &begun)
    }

    /// The innermost body ends. Constant time.
    #[tactic(auto, unfolding(crate::specs::Shown::state_of))]
    fn end_body(&mut self)
        ensures { (t : ℕ → CType) (p : List Op) → state_of t p self.new ≡ body_ended (state_of t p self.old) }
    {
        self.specifiers = match self.bodies.pop() {
            Some(body) => body.outer,
            None => no_specifiers(self.alloc),
        };
    }

    /// The struct whose members stand in the innermost body.
    #[tactic(auto, unfolding(crate::specs::Shown::state_of))]
    pub(crate) fn members_of(&self) -> StructId
        ensures { (t : ℕ → CType) → result ≡ (body (state_of t [] self.now)).members_of }
    {
        match self.bodies.top() {
            Some(body) => body.members_of,
            None => StructId::new(0),
        }
    }

    /// The specifiers are whole. Linear in their words, and in the number of parameters of their type where there are words.
    #[tactic(auto, using(crate::proofs::Low::so_far_low), unfolding(crate::specs::Shown::state_of))]
    fn end_specifiers(&mut self, types: &mut Types) -> Result<(), NoMemory>
        requires { IsShown types.old self.old }
        ensures shown { OnOk result
            ((t : ℕ → CType) (p : List Op) → Knows t types.new → state_of t p self.new
            ≡ specifiers_ended (state_of t p self.old)) }
        ensures grown { OnOk result (Grows types.old types.new) }
    {
        let Specifiers {
            so_far,
            words,
            storage,
            is_untagged,
        } = mem::replace(&mut self.specifiers, no_specifiers(self.alloc));
        let ty = types.specified(self.alloc, words, &so_far)?;
        self.declarations.push(OpenDeclaration {
            ty,
            storage,
            is_untagged,
            name: None,
            declared: ty,
        })
    }

    /// A member without a declarator. Linear in the members that lie in it.
    #[tactic(auto, unfolding(crate::specs::Shown::state_of))]
    fn add_unnamed(&mut self, types: &Types, at: &Place) -> Result<(), NoMemory>
        requires { IsShown types.now self.old }
        ensures { OnOk result
            ((t : ℕ → CType) (p : List Op) → Knows t types.now → state_of t p self.new
            ≡ with_unnamed_member at.now (state_of t p self.old)) }
    {
        let ty = self.declared_type(types);
        let number = self.members_of();
        declare_unnamed(&mut self.names, types, at, number, ty)
    }

    /// The type of the specifiers of the innermost declaration.
    #[tactic(auto, unfolding(crate::specs::Shown::state_of))]
    pub(crate) fn declared_type(&self, types: &Types) -> TypeId
        requires { IsShown types.now self.now }
        ensures low { result < length types.now }
        ensures is { (t : ℕ → CType) → Knows t types.now → t result
            ≡ (declaration (state_of t [] self.now)).type }
    {
        match self.declarations.top() {
            Some(declaration) => declaration.ty,
            None => types.base(),
        }
    }

    /// What a part of specifiers does.
    #[tactic(auto, unfolding(crate::specs::Shown::state_of))]
    pub(crate) fn specifier(
        &mut self,
        spelling: &Spelling,
        types: &mut Types,
        implicit: &ImplicitTypes,
        tape: &[Op],
        at: usize,
        op: SpecOp,
    ) -> Result<(), NoMemory>
        requires shown { IsShown types.old self.old }
        requires implicit { AreImplicit types.old implicit.now }
        requires within { at ≤ length tape.now }
        ensures shown { OnOk result
            ((t : ℕ → CType) → Knows t types.new → state_at t tape.now at self.new
            ≡ specifier_step (spelling_of spelling.now) (state_at t tape.now at self.old) op) }
        ensures grown { OnOk result (Grows types.old types.new) }
    {
        match op {
            SpecOp::Word { token } => self.add_word(spelling, token),
            SpecOp::Storage { keyword } => Ok(self.specifiers.storage.push(keyword)?),
            SpecOp::Void => {
                self.specifiers.so_far = SoFar::Void;
                Ok(())
            }
            SpecOp::Typedef { name, .. } => {
                self.specifiers.so_far = type_by(self.names.meaning(spelling.key(name)));
                Ok(())
            }
            SpecOp::TagUse { kind, token, name } => self.add_tag(
                spelling, false, kind, token, name,
            ),
            SpecOp::TagAlone { kind, token, name } => self.add_tag(
                spelling, true, kind, token, name,
            ),
            SpecOp::TagBody { kind, token, name } => self.begin_tag(spelling, kind, token, name),
            SpecOp::Untagged { kind, token } => self.begin_untagged(kind, &spelling.place(token)),
            SpecOp::BodyEnd => {
                self.end_body();
                Ok(())
            }
            SpecOp::Enumerator { token, name } => declare_enumerator(
                &mut self.names,
                types,
                &spelling.place(token),
                spelling.key(name),
            ),
            SpecOp::UnnamedMember { token } => self.add_unnamed(types, &spelling.place(token)),
            SpecOp::PartBegin => self.begin_part(at),
            SpecOp::TypeofEnd { token } => {
                self.end_typeof(spelling, types, implicit, tape, at, token)
            }
            SpecOp::TypeEnd => {
                self.end_type();
                Ok(())
            }
            SpecOp::SpecsEnd => self.end_specifiers(types),
        }
    }
}
