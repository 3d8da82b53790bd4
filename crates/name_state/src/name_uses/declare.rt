//! What declarators, enumerators and members declare (C99, 6.7).

ghost use Rattle.std.specs.Prelude.{◌≡◌, ◌<◌, [], ℕ, Bool, Option, None, OnOk, length, option_map, if◌then◌else◌};
ghost use Rattle.std.specs.List.{last_or};
ghost use Rattle.type_table.specs.Types.{CType, base};
ghost use Rattle.name_state.specs.NameTypes.Known.{Knows};
ghost use Rattle.name_rules.specs.Scopes.{enumerator_role};
ghost use Rattle.name_rules.specs.Declaring.{untagged_number, declared_here, thing_where, static_where, declared_thing, declared_typedef, declared_by, typedef_known, declared_some, declared_param, declared_member, unnamed_member, body_counted, body_entered};
ghost use Rattle.name_rules.specs.NameSteps.Steps.{body_entered_by};
ghost use Rattle.name_tables.specs.UnitSpelling.Spelled.{spelling_of};
ghost use Rattle.name_state.specs.UnitNames.Shown.{names_of};
ghost use Rattle.name_state.specs.NameUses.Named.{named_of};
ghost use Rattle.name_state.specs.NameUses.Local.{local_declared};

use crate::name_types::Types;
use crate::name_uses::first::{Named, declare_first, declare_here};
use crate::name_uses::listed::{has_word, is_place};
use crate::name_uses::uses::check_size;
use crate::unit_names::Names;
use c_words::Keyword;
use name_tables::name_records::{Bodied, Role, Rule};
use name_tables::name_scopes::{Meant, Place};
use name_tables::unit_spelling::Spelling;
use qual_base::{NameId, NoMemory, StructId, TypeId, UnitNo};

/// An enumerator. Constant time but for growth.
pub fn declare_enumerator(
    names: &mut Names,
    types: &Types,
    at: &Place,
    name: NameId,
) -> Result<(), NoMemory>
    ensures { OnOk result ((t : ℕ → CType) → Knows t types.now → names_of t names.new
        ≡ declared_here at.now name enumerator_role (base []) None (names_of t names.old)) }
{
    let ty = types.base();
    declare_here(names, at, name, &Role::Enumerator, ty, &None)?;
    Ok(())
}

/// A new object or function of the file. Constant time but for growth.
fn add_thing(names: &mut Names, is_new: bool, name: NameId, at: &Place) -> Result<(), NoMemory>
    ensures { OnOk result ((t : ℕ → CType) → names_of t names.new
        ≡ thing_where is_new name at.now (names_of t names.old)) }
{
    if is_new {
        names.push_thing(name, at)
    } else {
        Ok(())
    }
}

/// A declaration of an object or function of the file that may have `static`. Constant time but for growth.
fn add_static(
    names: &mut Names,
    is_static: bool,
    unit: UnitNo,
    name: NameId,
) -> Result<(), NoMemory>
    ensures { OnOk result ((t : ℕ → CType) → names_of t names.new
        ≡ static_where is_static unit name (names_of t names.old)) }
{
    if is_static {
        names.push_static(unit, name)
    } else {
        Ok(())
    }
}

/// An object or function of the file. Linear in the storage words, and constant time but for growth otherwise.
fn declare_thing(
    names: &mut Names,
    types: &Types,
    words: &[Keyword],
    at: &Place,
    name: NameId,
    ty: TypeId,
) -> Result<(), NoMemory>
    requires { ty < length types.now }
    ensures { OnOk result ((t : ℕ → CType) → Knows t types.now → names_of t names.new
        ≡ declared_thing words.now at.now name (t ty) (names_of t names.old)) }
{
    let first = names.linked(name, at);
    add_thing(names, is_place(&first, at), name, at)?;
    add_static(names, has_word(Keyword::Static, words), at.0, name)?;
    if types.is_function(ty) {
        declare_first(names, at, &Role::Function, &first, ty, &Some(*at))?;
    } else {
        declare_first(names, at, &Role::Object, &first, ty, &None)?;
    }
    names.bind(name, Meant::Thing(first))?;
    Ok(())
}

/// A typedef. Constant time but for growth.
fn declare_typedef(names: &mut Names, at: &Place, name: NameId, ty: TypeId) -> Result<(), NoMemory>
    ensures { OnOk result
        ((t : ℕ → CType) → names_of t names.new
        ≡ declared_typedef at.now name (t ty) (names_of t names.old)) }
{
    declare_first(names, at, &Role::Typedef, at, ty, &None)?;
    names.bind(name, Meant::Type(ty))?;
    Ok(())
}

/// An object of a block. Linear in the storage words, and constant time but for growth otherwise.
fn declare_local(
    names: &mut Names,
    words: &[Keyword],
    at: &Place,
    name: NameId,
    ty: TypeId,
) -> Result<(), NoMemory>
    ensures { OnOk result
        ((t : ℕ → CType) → names_of t names.new
        ≡ local_declared words.now at.now name (t ty) (names_of t names.old)) }
{
    let own = if has_word(Keyword::Static, words) {
        None
    } else {
        names.enclosing()
    };
    declare_here(names, at, name, &Role::Object, ty, &own)?;
    Ok(())
}

/// A name of a declaration with these storage words. Linear in them, and constant time but for growth otherwise.
fn declare_by(
    names: &mut Names,
    types: &Types,
    words: &[Keyword],
    at: &Place,
    name: NameId,
    ty: TypeId,
) -> Result<(), NoMemory>
    requires { ty < length types.now }
    ensures { OnOk result ((t : ℕ → CType) → Knows t types.now → names_of t names.new
        ≡ declared_by words.now at.now name (t ty) (names_of t names.old)) }
{
    if has_word(Keyword::Typedef, words) {
        declare_typedef(names, at, name, ty)
    } else if names.is_at_file() || types.is_function(ty) || has_word(Keyword::Extern, words) {
        declare_thing(names, types, words, at, name, ty)
    } else {
        declare_local(names, words, at, name, ty)
    }
}

/// The struct without a tag that is a word of specifiers of this type, where there is one.
pub fn untagged_number(types: &Types, is_untagged: bool, ty: TypeId) -> Option<StructId>
    requires { ty < length types.now }
    ensures { (t : ℕ → CType) → Knows t types.now
        → result ≡ untagged_number is_untagged (t ty) }
{
    if is_untagged {
        Some(types.struct_number(ty))
    } else {
        None
    }
}

/// What a struct without a tag is known by, where it is a word of a declaration with these storage words whose first name this is.
/// Linear in the words.
fn know_untagged(names: &mut Names, words: &[Keyword], name: NameId, untagged: &Option<StructId>)
    ensures { (t : ℕ → CType) → names_of t names.new
        ≡ typedef_known words.now name untagged.now (names_of t names.old) }
{
    if let Some(number) = untagged {
        if has_word(Keyword::Typedef, words) && names.is_at_file() {
            names.set_key(*number, true, name);
        }
    }
}

/// What a declarator declares, if it has a name; it may be what a struct without a tag is known by. Linear in the storage words, and
/// constant time but for growth otherwise.
pub fn declare_name(
    names: &mut Names,
    spelling: &Spelling,
    types: &Types,
    untagged: &Option<StructId>,
    named: &Option<Named>,
    words: &[Keyword],
    ty: TypeId,
) -> Result<(), NoMemory>
    requires { ty < length types.now }
    ensures { OnOk result ((t : ℕ → CType) → Knows t types.now → names_of t names.new
        ≡ declared_some (spelling_of spelling.now) untagged.now (option_map named_of named.now)
        words.now (t ty) (names_of t names.old)) }
{
    let Some(it) = named else {
        return Ok(());
    };
    let at = spelling.place(it.token);
    let name = spelling.key(it.name);
    check_size(names, types, &at, ty)?;
    declare_by(names, types, words, &at, name, ty)?;
    know_untagged(names, words, name, untagged);
    Ok(())
}

/// A parameter, if it has a name, with its number. Constant time but for growth.
pub fn declare_parameter(
    names: &mut Names,
    spelling: &Spelling,
    types: &Types,
    named: &Option<Named>,
    number: usize,
    own: &Option<Place>,
    ty: TypeId,
) -> Result<(), NoMemory>
    requires { ty < length types.now }
    ensures { OnOk result ((t : ℕ → CType) → Knows t types.now → names_of t names.new
        ≡ declared_param (spelling_of spelling.now) (option_map named_of named.now) number own.now
        (t ty) (names_of t names.old)) }
{
    let Some(it) = named else {
        return Ok(());
    };
    let at = spelling.place(it.token);
    check_size(names, types, &at, ty)?;
    declare_here(
        names,
        &at,
        spelling.key(it.name),
        &Role::Parameter(number),
        ty,
        own,
    )?;
    Ok(())
}

/// A member of a struct, if it has a name. Constant time but for growth.
pub fn declare_member(
    names: &mut Names,
    spelling: &Spelling,
    types: &Types,
    named: &Option<Named>,
    number: StructId,
    ty: TypeId,
) -> Result<(), NoMemory>
    requires { ty < length types.now }
    ensures { OnOk result ((t : ℕ → CType) → Knows t types.now → names_of t names.new
        ≡ declared_member (spelling_of spelling.now) (option_map named_of named.now) number (t ty)
        (names_of t names.old)) }
{
    let Some(it) = named else {
        return Ok(());
    };
    let at = spelling.place(it.token);
    let own = names.count_own(number);
    declare_first(names, &at, &Role::Field(number, own), &at, ty, &None)?;
    names.push_member(number, spelling.key(it.name), &at, ty)?;
    check_size(names, types, &at, ty)?;
    Ok(())
}

/// A member without a declarator, of a struct or union without a tag. Linear in the members that lie in it.
pub fn declare_unnamed(
    names: &mut Names,
    types: &Types,
    at: &Place,
    number: StructId,
    ty: TypeId,
) -> Result<(), NoMemory>
    requires { ty < length types.now }
    ensures { OnOk result ((t : ℕ → CType) → Knows t types.now → names_of t names.new
        ≡ unnamed_member at.now number (t ty) (names_of t names.old)) }
{
    let inner = types.struct_number(ty);
    let own = names.count_own(number);
    declare_first(names, at, &Role::Field(number, own), at, ty, &None)?;
    names.push_unnamed(number, at, ty, inner)?;
    Ok(())
}

/// A body at a function's name is counted; the function was first declared at this place. Constant time but for growth.
fn count_body(names: &mut Names, at: &Place, first: &Place, is_plain: bool) -> Result<(), NoMemory>
    ensures { OnOk result ((t : ℕ → CType) → names_of t names.new
        ≡ body_counted at.now first.now is_plain (names_of t names.old)) }
{
    let known = names.is_entered(at.0, first);
    names.blame(known, at, Rule::DefinedTwice)?;
    names.push_body(&Bodied {
        first: *first,
        at: *at,
        is_plain,
    })
}

/// The same where bodies are counted by their specifiers. Constant time but for growth.
fn count_where(
    names: &mut Names,
    at: &Place,
    first: &Place,
    is_plain: bool,
    is_counted: bool,
) -> Result<(), NoMemory>
    ensures { OnOk result ((t : ℕ → CType) → names_of t names.new
        ≡ (if is_counted then body_counted at.now first.now is_plain (names_of t names.old)
        else names_of t names.old)) }
{
    if is_counted {
        count_body(names, at, first, is_plain)
    } else {
        Ok(())
    }
}

/// A body begins at a function's name; the function was first declared at this place. It is plain without `inline`. Constant time
/// but for growth.
fn enter_at(
    names: &mut Names,
    at: &Place,
    first: &Place,
    is_plain: bool,
    is_counted: bool,
) -> Result<(), NoMemory>
    ensures { OnOk result ((t : ℕ → CType) → names_of t names.new
        ≡ body_entered at.now first.now is_plain is_counted (names_of t names.old)) }
{
    count_where(names, at, first, is_plain, is_counted)?;
    names.begin_body(first)
}

/// The body begins of the function that was declared last. It is plain without `inline`, and may be not counted. Constant time but for growth.
pub fn enter_body(names: &mut Names, is_plain: bool, is_counted: bool) -> Result<(), NoMemory>
    ensures { OnOk result ((t : ℕ → CType) → names_of t names.new
        ≡ body_entered_by is_plain is_counted (last_or None (names_of t names.old).declared)
        (names_of t names.old)) }
{
    match names.last_declared() {
        Some(declared) => enter_at(names, &declared.at, &declared.first, is_plain, is_counted),
        None => Ok(()),
    }
}
