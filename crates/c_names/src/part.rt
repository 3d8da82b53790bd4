//! Types by expressions, by what is known behind them (C23, 6.7.3.6).

ghost use Rattle.std.specs.Prelude.{◌≡◌, [], None, ◌<◌, ◌≤◌, ℕ, IfOk, OnOk, length, option_map, drop, take, List};
ghost use Rattle.tape_ops.specs.declared.op.Op.{Op};
ghost use Rattle.type_table.specs.Types.{CType, pointer, words_of};
ghost use Rattle.name_state.specs.NameTypes.Known.{Knows, Grows};
ghost use Rattle.type_table.specs.Rows.{type_of};
ghost use Rattle.name_rules.specs.Identifiers.{type_or_base};
ghost use Rattle.name_rules.specs.NameSteps.Steps.{declaration, part, part_begun, part_ended, shape_of_part, with_type, typeof_ended, type_ended, auto_ended};
ghost use Rattle.c_names.specs.Parts.{IsLowSome, blamed, declared_as, auto_declared, type_last, with_some_type};
ghost use Rattle.std.specs.List.{last_or};
ghost use Rattle.name_state.specs.UnitNames.Shown.{type_named_of};
ghost use Rattle.name_tables.specs.UnitSpelling.Spelled.{spelling_of};
ghost use Rattle.name_rules.specs.Pieces.{bare, with_words};
ghost use Rattle.name_rules.specs.ShapeSteps.State as states;
ghost use Rattle.name_rules.specs.ShapeSteps.Steps as steps;
ghost use Rattle.expr_shapes.specs.ShapeValues.Views.{shape_in, some_type, some_value_type};
ghost use Rattle.unit_shapes.specs.Views.{names_in, AreImplicit};
ghost use Rattle.c_names.specs.Shown.{state_of, state_at, IsShown};

use crate::specifier::no_specifiers;
use crate::state::{OpenPart, State};
use expr_shapes::shape_stacks::Stacks;
use expr_shapes::shape_values::{ExprShape, ValueType, value};
use name_state::name_types::{SoFar, Types};
use name_state::unit_names::Names;
use name_tables::name_records::{Rule, TypeNamed};
use name_tables::unit_spelling::Spelling;
use qual_base::{NoMemory, TokenId, TypeId};
use std::alloc::Global;
use std::mem;
use tape_ops::Op;
use unit_shapes::{ImplicitTypes, step};

/// The shape that the ops of an expression leave on the stack, by names that are known. Linear in the ops.
fn shape_of(
    alloc: Global,
    names: &Names,
    spelling: &Spelling,
    types: &Types,
    implicit: &ImplicitTypes,
    ops: &[Op],
) -> Result<ExprShape, NoMemory>
    requires { AreImplicit types.now implicit.now }
    ensures { IfOk result (λ shape. shape_in types.now shape ≡ states.shape_at 0
        (steps.run (spelling_of spelling.now) (names_in types.now names.now) states.nothing
        ops.now)) }
{
    let mut stacks = Stacks::new(alloc);
    for op in ops {
        step(&mut stacks, spelling, names, types.table(), implicit, *op)?;
    }
    Ok(stacks.shape_at(0))
}

/// A pointer to a type without annotation words. As `bare_value`.
fn bare_pointer(alloc: Global, types: &mut Types, ty: TypeId) -> Result<TypeId, NoMemory>
    ensures made { IfOk result
        (λ at. type_of types.new at ≡ bare (pointer [] (type_of types.old ty))) }
    ensures low { IfOk result (λ at. at < length types.new) }
    ensures grown { OnOk result (Grows types.old types.new) }
{
    let inside = types.bare(alloc, ty)?;
    let at = types.pointer(alloc, Vec::new(alloc), inside)?;
    Ok(at)
}

/// A value's type without annotation words. Constant time but for growth, and for types whose like without words is not known yet.
fn bare_value(
    alloc: Global,
    types: &mut Types,
    value: &Option<ValueType>,
) -> Result<Option<TypeId>, NoMemory>
    ensures made { IfOk result (λ ty. some_type types.new ty
        ≡ option_map bare (some_value_type types.old value.now)) }
    ensures low { IfOk result (IsLowSome (length types.new)) }
    ensures grown { OnOk result (Grows types.old types.new) }
{
    match value {
        Some(ValueType::Of(ty)) => {
            let at = types.bare(alloc, *ty)?;
            Ok(Some(at))
        }
        Some(ValueType::PointerTo(ty)) => {
            let at = bare_pointer(alloc, types, *ty)?;
            Ok(Some(at))
        }
        None => Ok(None),
    }
}

/// The ops of a tape from so many on up to so many. Constant time.
fn ops_between(tape: &[Op], from: usize, at: usize) -> &[Op]
    requires { at ≤ length tape.now }
    ensures { result.now ≡ drop from (take at tape.now) }
{
    let passed = &tape[..at];
    if from <= at { &passed[from..] } else { &[] }
}

impl State {
    /// A type by what stands in parentheses begins, behind so many ops. Constant time but for growth.
    #[tactic(auto, unfolding(crate::specs::Shown::state_of))]
    pub(crate) fn begin_part(&mut self, at: usize) -> Result<(), NoMemory>
        ensures { OnOk result ((t : ℕ → CType) (p : List Op) → at ≡ length p
            → state_of t p self.new ≡ part_begun (state_of t p self.old)) }
    {
        let outer = mem::replace(&mut self.specifiers, no_specifiers(self.alloc));
        self.parts.push(OpenPart { outer, from: at })
    }

    /// The specifiers outside of the innermost part again, and how many ops are before it. Constant time.
    #[tactic(auto, unfolding(crate::specs::Shown::state_of))]
    fn leave_part(&mut self) -> usize
        ensures from { (t : ℕ → CType) (p : List Op) → result ≡ (part (state_of t p self.old)).from }
        ensures left { (t : ℕ → CType) (p : List Op)
            → state_of t p self.new ≡ part_ended (state_of t p self.old) }
    {
        match self.parts.pop() {
            Some(part) => {
                self.specifiers = part.outer;
                part.from
            }
            None => {
                self.specifiers = no_specifiers(self.alloc);
                0
            }
        }
    }

    /// What the ops of the innermost part leave on the stack, and the specifiers outside it again. Linear in these ops.
    fn end_part(
        &mut self,
        spelling: &Spelling,
        types: &Types,
        implicit: &ImplicitTypes,
        tape: &[Op],
        at: usize,
    ) -> Result<ExprShape, NoMemory>
        requires implicit { AreImplicit types.now implicit.now }
        requires within { at ≤ length tape.now }
        ensures shape { IfOk result (λ shape. shape_in types.now shape
            ≡ shape_of_part (spelling_of spelling.now)
            (state_at (type_of types.now) tape.now at self.old)) }
        ensures left { OnOk result ((t : ℕ → CType) (p : List Op)
            → state_of t p self.new ≡ part_ended (state_of t p self.old)) }
    {
        let from = self.leave_part();
        shape_of(
            self.alloc,
            &self.names,
            spelling,
            types,
            implicit,
            ops_between(tape, from, at),
        )
    }

    /// A type, or the base type and a fault where there is none. Constant time.
    #[tactic(auto, unfolding(crate::specs::Shown::state_of))]
    fn or_base(
        &mut self,
        spelling: &Spelling,
        types: &Types,
        ty: &Option<TypeId>,
        token: TokenId,
    ) -> Result<TypeId, NoMemory>
        requires { IsLowSome (length types.now) ty.now }
        ensures made { IfOk result
            (λ at. type_of types.now at ≡ type_or_base (some_type types.now ty.now)) }
        ensures low { IfOk result (λ at. at < length types.now) }
        ensures blamed { OnOk result ((t : ℕ → CType) (p : List Op) → state_of t p self.new
            ≡ blamed (spelling_of spelling.now) token (some_type types.now ty.now)
            (state_of t p self.old)) }
    {
        self.names
            .blame(ty.is_none(), &spelling.place(token), Rule::NoType)?;
        match ty {
            Some(ty) => Ok(*ty),
            None => Ok(types.base()),
        }
    }

    /// The specifiers are of this type. Constant time.
    #[tactic(auto, unfolding(crate::specs::Shown::state_of))]
    fn set_type(&mut self, ty: TypeId)
        ensures { (t : ℕ → CType) (p : List Op) → state_of t p self.new
            ≡ with_type (t ty) (state_of t p self.old) }
    {
        self.specifiers.so_far = SoFar::Type(ty);
    }

    /// The type of what the innermost part leaves, in its place or else of its value, without annotation words. As `end_part`.
    fn bare_part(
        &mut self,
        spelling: &Spelling,
        types: &mut Types,
        implicit: &ImplicitTypes,
        tape: &[Op],
        at: usize,
    ) -> Result<Option<TypeId>, NoMemory>
        requires implicit { AreImplicit types.old implicit.now }
        requires within { at ≤ length tape.now }
        ensures made { IfOk result (λ ty. some_type types.new ty ≡ option_map bare
            (shape_of_part (spelling_of spelling.now)
            (state_at (type_of types.old) tape.now at self.old)).type) }
        ensures low { IfOk result (IsLowSome (length types.new)) }
        ensures grown { OnOk result (Grows types.old types.new) }
        ensures left { OnOk result ((t : ℕ → CType) (p : List Op)
            → state_of t p self.new ≡ part_ended (state_of t p self.old)) }
    {
        match self.end_part(spelling, types, implicit, tape, at)? {
            ExprShape::Place(Some(ty)) => {
                let at = types.bare(self.alloc, ty)?;
                Ok(Some(at))
            }
            ExprShape::Place(None) => Ok(None),
            ExprShape::Value(value) => bare_value(self.alloc, types, &value),
        }
    }

    /// A type by an expression ends. Linear in the ops of the expression, but for growth.
    pub(crate) fn end_typeof(
        &mut self,
        spelling: &Spelling,
        types: &mut Types,
        implicit: &ImplicitTypes,
        tape: &[Op],
        at: usize,
        token: TokenId,
    ) -> Result<(), NoMemory>
        requires shown { IsShown types.old self.old }
        requires implicit { AreImplicit types.old implicit.now }
        requires within { at ≤ length tape.now }
        ensures shown { OnOk result ((t : ℕ → CType) → Knows t types.new
            → state_at t tape.now at self.new
            ≡ typeof_ended (spelling_of spelling.now) token (state_at t tape.now at self.old)) }
        ensures grown { OnOk result (Grows types.old types.new) }
    {
        let ty = self.bare_part(spelling, types, implicit, tape, at)?;
        let made = self.or_base(spelling, types, &ty, token)?;
        self.set_type(made);
        Ok(())
    }

    /// The newest type's name. Constant time.
    #[tactic(auto, unfolding(crate::specs::Shown::state_of))]
    fn last_named(&self) -> Option<TypeNamed>
        ensures { (t : ℕ → CType) (p : List Op) → option_map (type_named_of t) result
            ≡ last_or None (state_of t p self.now).names.type_names }
    {
        self.names.type_names().last().copied()
    }

    /// The type whose name ended last. Constant time.
    fn last_type(&self) -> Option<TypeId>
        ensures { (t : ℕ → CType) (p : List Op)
            → option_map t result ≡ type_last (state_of t p self.now) }
    {
        match self.last_named() {
            Some(named) => Some(named.ty),
            None => None,
        }
    }

    /// The specifiers are of this type, where there is one. Constant time.
    fn set_some_type(&mut self, ty: &Option<TypeId>)
        ensures { (t : ℕ → CType) (p : List Op) → state_of t p self.new
            ≡ with_some_type (option_map t ty.now) (state_of t p self.old) }
    {
        match ty {
            Some(ty) => self.set_type(*ty),
            None => {}
        }
    }

    /// A type by the name of a type ends. Constant time.
    pub(crate) fn end_type(&mut self)
        ensures { (t : ℕ → CType) (p : List Op)
            → state_of t p self.new ≡ type_ended (state_of t p self.old) }
    {
        self.leave_part();
        let ty = self.last_type();
        self.set_some_type(&ty);
    }

    /// A type with the words of the specifiers of the innermost declaration. Linear in the words.
    fn auto_type(&self, types: &mut Types, bare: TypeId) -> Result<TypeId, NoMemory>
        requires shown { IsShown types.old self.now }
        requires low { bare < length types.old }
        ensures made { IfOk result (λ ty. (t : ℕ → CType) (p : List Op) → Knows t types.new
            → t ty ≡ with_words (words_of (declaration (state_of t p self.now)).type) (t bare)) }
        ensures low { IfOk result (λ ty. ty < length types.new) }
        ensures grown { OnOk result (Grows types.old types.new) }
    {
        let ty = self.declared_type(types);
        let words = types.table().words(ty).to_vec(self.alloc)?;
        let at = types.specified(self.alloc, words, &SoFar::Type(bare))?;
        Ok(at)
    }

    /// The declarator has this type. Constant time.
    #[tactic(auto, unfolding(crate::specs::Shown::state_of))]
    fn set_declared(&mut self, ty: TypeId) -> Result<(), NoMemory>
        ensures { OnOk result ((t : ℕ → CType) (p : List Op) → state_of t p self.new
            ≡ declared_as (t ty) (state_of t p self.old)) }
    {
        match self.declarations.pop() {
            Some(mut declaration) => {
                declaration.declared = ty;
                self.declarations.push(declaration)
            }
            None => Ok(()),
        }
    }

    /// The name of the declarator gets this type, with the words of the specifiers. Linear in the words.
    fn set_auto(&mut self, types: &mut Types, bare: TypeId) -> Result<(), NoMemory>
        requires shown { IsShown types.old self.old }
        requires low { bare < length types.old }
        ensures made { OnOk result ((t : ℕ → CType) (p : List Op) → Knows t types.new
            → state_of t p self.new ≡ auto_declared (t bare) (state_of t p self.old)) }
        ensures grown { OnOk result (Grows types.old types.new) }
    {
        let ty = self.auto_type(types, bare)?;
        self.set_declared(ty)?;
        Ok(())
    }

    /// The expression ends that gives its type to the name of the declarator. Linear in its ops, but for growth.
    pub(crate) fn end_auto(
        &mut self,
        spelling: &Spelling,
        types: &mut Types,
        implicit: &ImplicitTypes,
        tape: &[Op],
        at: usize,
        token: TokenId,
    ) -> Result<(), NoMemory>
        requires shown { IsShown types.old self.old }
        requires implicit { AreImplicit types.old implicit.now }
        requires within { at ≤ length tape.now }
        ensures shown { OnOk result ((t : ℕ → CType) → Knows t types.new
            → state_at t tape.now at self.new
            ≡ auto_ended (spelling_of spelling.now) token (state_at t tape.now at self.old)) }
        ensures grown { OnOk result (Grows types.old types.new) }
    {
        let shape = self.end_part(spelling, types, implicit, tape, at)?;
        let value = value(types.table(), &shape);
        let ty = bare_value(self.alloc, types, &value)?;
        let bare = self.or_base(spelling, types, &ty, token)?;
        self.set_auto(types, bare)?;
        self.declare(spelling, types)
    }
}
