//! Functions with lists of identifiers, behind which their parameters are declared.

ghost use Rattle.std.specs.Prelude.{◌≡◌, ◌<◌, ◌++◌, [], ℕ, List, Option, OnOk, length, map, option_map};
ghost use Rattle.tape_ops.specs.declared.op.Op.{Op};
ghost use Rattle.type_table.specs.Types.{CType, base};
ghost use Rattle.name_state.specs.NameTypes.Known.{Knows, Grows};
ghost use Rattle.c_words.specs.declared.kinds.Keyword.TheVariants as keywords;
ghost use Rattle.name_rules.specs.Identifiers.{identified, number_of_identifier, old_declared, old_declared_some, old_faults, old_types, type_or_base};
ghost use Rattle.name_rules.specs.Declaring.{has_word};
ghost use Rattle.name_rules.specs.Pieces.{decayed};
ghost use Rattle.name_rules.specs.NameSteps.Steps.{declaration, parameters, olds, with_olds, name_ended, with_identifier, with_old_parameter};
ghost use Rattle.name_tables.specs.UnitSpelling.Spelled.{spelling_of};
ghost use Rattle.name_state.specs.UnitNames.Shown.{names_of};
ghost use Rattle.name_state.specs.NameUses.Named.{named_of};
ghost use Rattle.c_names.specs.Shown.{state_of, old_of, olds_of, IsShown};

use crate::identifiers::{Identifiers, OldParameter};
use crate::state::State;
use c_words::Keyword;
use name_state::name_types::Types;
use name_state::name_uses::{Named, declare_parameter, has_word};
use name_state::unit_names::Names;
use name_tables::name_records::Rule;
use name_tables::name_scopes::Place;
use name_tables::unit_spelling::Spelling;
use qual_base::{NameId, NoMemory, TokenId, TypeId};

/// The type of a parameter; the base type where no declaration declares it.
fn type_or(it: &OldParameter, plain: TypeId) -> TypeId
    ensures { (t : ℕ → CType) → t plain ≡ base []
        → t result ≡ type_or_base (option_map t it.now.ty) }
{
    match it.ty {
        Some(ty) => ty,
        None => plain,
    }
}

/// The identifiers of a list are its parameters: one that no declaration declares is at fault, and of the base type. Linear in them.
pub(crate) fn add_identifiers(
    names: &mut Names,
    spelling: &Spelling,
    plain: TypeId,
    identifiers: &[OldParameter],
    types: &mut Vec<TypeId>,
) -> Result<(), NoMemory>
    ensures names { OnOk result ((t : ℕ → CType) → names_of t names.new
        ≡ old_faults (spelling_of spelling.now) (map (old_of t) identifiers.now)
        (names_of t names.old)) }
    ensures types { OnOk result ((t : ℕ → CType) → t plain ≡ base []
        → map t types.new.items ≡ map t types.old.items
        ++ old_types (map (old_of t) identifiers.now)) }
{
    for it in identifiers {
        names.blame(it.ty.is_none(), &spelling.place(it.token), Rule::Undeclared)?;
        types.push(type_or(it, plain))?;
    }
    Ok(())
}

/// One more identifier of a list. A second one of a name is at fault. Constant time but for growth.
fn add_old(
    names: &mut Names,
    spelling: &Spelling,
    identifiers: &mut Identifiers,
    token: TokenId,
    name: NameId,
) -> Result<(), NoMemory>
    ensures { OnOk result ((t : ℕ → CType) → olds_of t identifiers.new names.new
        ≡ identified (spelling_of spelling.now) token name (olds_of t identifiers.old names.old)) }
{
    let key = spelling.key(name);
    match identifiers.number(key) {
        Some(_) => names.blame(true, &spelling.place(token), Rule::DefinedTwice),
        None => identifiers.push(token, key),
    }
}

/// A name that is declared behind a list of identifiers, with the type of its parameter. Constant time but for growth.
fn declare_old(
    names: &mut Names,
    spelling: &Spelling,
    types: &Types,
    own: &Option<Place>,
    identifiers: &mut Identifiers,
    named: &Named,
    ty: TypeId,
) -> Result<(), NoMemory>
    requires { ty < length types.now }
    ensures { OnOk result ((t : ℕ → CType) → Knows t types.now
        → olds_of t identifiers.new names.new ≡ old_declared (spelling_of spelling.now) own.now
        (named_of named.now) (t ty)
        (number_of_identifier ((spelling_of spelling.now).key named.now.name) (map (old_of t) identifiers.old))
        (olds_of t identifiers.old names.old)) }
{
    let at = spelling.place(named.token);
    match identifiers.number(spelling.key(named.name)) {
        Some(number) => {
            names.blame(identifiers.is_typed(number), &at, Rule::DefinedTwice)?;
            identifiers.set_type(number, ty);
            declare_parameter(names, spelling, types, &Some(*named), number, own, ty)
        }
        None => names.blame(true, &at, Rule::Undeclared),
    }
}

/// The same where a declarator has a name.
fn declare_some_old(
    names: &mut Names,
    spelling: &Spelling,
    types: &Types,
    own: &Option<Place>,
    identifiers: &mut Identifiers,
    named: &Option<Named>,
    ty: TypeId,
) -> Result<(), NoMemory>
    requires { ty < length types.now }
    ensures { OnOk result ((t : ℕ → CType) → Knows t types.now
        → olds_of t identifiers.new names.new ≡ old_declared_some (spelling_of spelling.now) own.now
        (option_map named_of named.now) (t ty) (olds_of t identifiers.old names.old)) }
{
    match named {
        Some(named) => declare_old(names, spelling, types, own, identifiers, named, ty),
        None => Ok(()),
    }
}

impl State {
    /// One more identifier of the innermost list of parameters. A second one of a name is at fault. Constant time but for growth.
    #[tactic(auto, unfolding(crate::specs::Shown::state_of))]
    pub(crate) fn add_identifier(
        &mut self,
        spelling: &Spelling,
        token: TokenId,
        name: NameId,
    ) -> Result<(), NoMemory>
        ensures { OnOk result ((t : ℕ → CType) (p : List Op) → state_of t p self.new
            ≡ with_identifier (spelling_of spelling.now) token name (state_of t p self.old)) }
    {
        let Some(mut parameters) = self.parameters.pop() else {
            return Ok(());
        };
        add_old(
            &mut self.names,
            spelling,
            &mut parameters.identifiers,
            token,
            name,
        )?;
        self.parameters.push(parameters)
    }

    /// A declaration behind the innermost list of identifiers declares a parameter of this type. Constant time but for growth.
    #[tactic(auto, unfolding(crate::specs::Shown::state_of))]
    fn declare_old(
        &mut self,
        spelling: &Spelling,
        types: &Types,
        named: &Option<Named>,
        ty: TypeId,
    ) -> Result<(), NoMemory>
        requires { ty < length types.now }
        ensures { OnOk result ((t : ℕ → CType) (p : List Op) → Knows t types.now
            → state_of t p self.new ≡ with_olds (old_declared_some (spelling_of spelling.now)
            (parameters (state_of t p self.old)).own (option_map named_of named.now) (t ty)
            (olds (state_of t p self.old))) (state_of t p self.old)) }
    {
        match self.parameters.pop() {
            Some(mut parameters) => {
                declare_some_old(
                    &mut self.names,
                    spelling,
                    types,
                    &parameters.own,
                    &mut parameters.identifiers,
                    named,
                    ty,
                )?;
                self.parameters.push(parameters)
            }
            None => {
                let mut none = Identifiers::new(self.alloc);
                declare_some_old(
                    &mut self.names,
                    spelling,
                    types,
                    &None,
                    &mut none,
                    named,
                    ty,
                )
            }
        }
    }

    /// Whether the innermost declaration is of types. Linear in its storage words.
    #[tactic(auto, unfolding(crate::specs::Shown::state_of))]
    fn is_typedef(&self) -> bool
        ensures { (t : ℕ → CType) (p : List Op) → result
            ≡ has_word keywords.Typedef (declaration (state_of t p self.now)).storage }
    {
        match self.declarations.top() {
            Some(declaration) => has_word(Keyword::Typedef, &declaration.storage),
            None => false,
        }
    }

    /// The name of the declarator, if it has one. Constant time.
    #[tactic(auto, unfolding(crate::specs::Shown::state_of))]
    fn name(&self) -> Option<Named>
        ensures { (t : ℕ → CType) (p : List Op) → option_map named_of result
            ≡ (declaration (state_of t p self.now)).name }
    {
        match self.declarations.top() {
            Some(declaration) => declaration.name,
            None => None,
        }
    }

    /// The type of the declarator. Constant time.
    #[tactic(auto, unfolding(crate::specs::Shown::state_of))]
    fn type_so_far(&self, types: &Types) -> TypeId
        requires { IsShown types.now self.now }
        ensures is { (t : ℕ → CType) (p : List Op) → Knows t types.now
            → t result ≡ (declaration (state_of t p self.now)).declared }
        ensures low { result < length types.now }
    {
        match self.declarations.top() {
            Some(declaration) => declaration.declared,
            None => types.base(),
        }
    }

    /// A declarator ends, and has declared a name. Constant time.
    #[tactic(auto, unfolding(crate::specs::Shown::state_of))]
    fn end_name(&mut self) -> Result<(), NoMemory>
        ensures { OnOk result ((t : ℕ → CType) (p : List Op) → state_of t p self.new
            ≡ name_ended (state_of t p self.old)) }
    {
        match self.declarations.pop() {
            Some(mut declaration) => {
                declaration.is_untagged = false;
                declaration.name = None;
                declaration.declared = declaration.ty;
                self.declarations.push(declaration)
            }
            None => Ok(()),
        }
    }

    /// The declarator declares a parameter of the innermost list of identifiers. Constant time but for growth.
    fn declare_parameter_of(
        &mut self,
        spelling: &Spelling,
        types: &mut Types,
    ) -> Result<(), NoMemory>
        requires { IsShown types.old self.old }
        ensures shown { OnOk result ((t : ℕ → CType) (p : List Op) → Knows t types.new
            → state_of t p self.new ≡ name_ended (with_olds (old_declared_some (spelling_of spelling.now)
            (parameters (state_of t p self.old)).own (declaration (state_of t p self.old)).name
            (decayed (declaration (state_of t p self.old)).declared) (olds (state_of t p self.old)))
            (state_of t p self.old))) }
        ensures grown { OnOk result (Grows types.old types.new) }
    {
        let named = self.name();
        let declared = self.type_so_far(types);
        let ty = types.decayed(self.alloc, declared)?;
        self.declare_old(spelling, types, &named, ty)?;
        self.end_name()
    }

    /// The declarator declares a parameter of the innermost list of identifiers, or a type. Linear in the storage words, and constant
    /// time but for growth otherwise.
    pub(crate) fn declare_identifier(
        &mut self,
        spelling: &Spelling,
        types: &mut Types,
    ) -> Result<(), NoMemory>
        requires { IsShown types.old self.old }
        ensures shown { OnOk result ((t : ℕ → CType) (p : List Op) → Knows t types.new
            → state_of t p self.new
            ≡ with_old_parameter (spelling_of spelling.now) (state_of t p self.old)) }
        ensures grown { OnOk result (Grows types.old types.new) }
    {
        if self.is_typedef() {
            self.declare(spelling, types)
        } else {
            self.declare_parameter_of(spelling, types)
        }
    }
}
