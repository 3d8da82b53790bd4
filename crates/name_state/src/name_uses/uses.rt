//! Names in expressions, and types' names.

ghost use Rattle.std.specs.Prelude.{◌≡◌, ◌<◌, ℕ, Some, OnOk, length, option_map};
ghost use Rattle.type_table.specs.Types.{CType};
ghost use Rattle.name_state.specs.NameTypes.Known.{Knows, so_far_type};
ghost use Rattle.name_rules.specs.Scopes.{sized};
ghost use Rattle.name_rules.specs.Declaring.{use_by, is_missing, used, type_named, type_by};
ghost use Rattle.name_tables.specs.UnitSpelling.Spelled.{spelling_of};
ghost use Rattle.name_state.specs.UnitNames.Shown.{names_of, meaning_of, use_of};

use crate::name_types::{SoFar, Types};
use crate::unit_names::Names;
use name_tables::name_records::{Rule, Use};
use name_tables::name_scopes::{Meant, Place};
use name_tables::unit_spelling::Spelling;
use qual_base::{NameId, NoMemory, TokenId, TypeId};

/// What a use is of a name that stands for this, or for nothing.
fn use_by(found: Option<Meant>, is_called: bool) -> Use
    ensures { (t : ℕ → CType) → use_of result ≡ use_by (option_map (meaning_of t) found) is_called }
{
    match found {
        Some(Meant::Thing(at)) => Use::Means(at),
        Some(Meant::Type(_)) => Use::Missing,
        None if is_called => Use::Called,
        None => Use::Missing,
    }
}

/// Whether a name has no meaning that it needs.
fn is_missing(found: &Use) -> bool
    ensures { result ≡ is_missing (use_of found.now) }
{
    match found {
        Use::Means(_) | Use::Called => false,
        Use::Missing => true,
    }
}

/// A name in an expression. Takes constant time a scope that is open, but for growth.
pub fn use_name(
    names: &mut Names,
    spelling: &Spelling,
    is_called: bool,
    token: TokenId,
    name: NameId,
) -> Result<(), NoMemory>
    ensures { OnOk result
        ((t : ℕ → CType) → names_of t names.new
        ≡ used (spelling_of spelling.now) is_called token name (names_of t names.old)) }
{
    let at = spelling.place(token);
    let found = names.meaning(spelling.key(name));
    let it = use_by(found, is_called);
    names.push_use(&at, &it)?;
    names.blame(is_missing(&it), &at, Rule::Undeclared)?;
    Ok(())
}

/// The type that specifiers have by a name that stands for this.
fn type_of(meant: &Meant) -> SoFar
    ensures { (t : ℕ → CType) → so_far_type t result ≡ type_by (Some (meaning_of t meant.now)) }
{
    match meant {
        Meant::Type(ty) => SoFar::Type(*ty),
        Meant::Thing(_) => SoFar::Base,
    }
}

/// The type that specifiers have by a name.
pub fn type_by(found: Option<Meant>) -> SoFar
    ensures { (t : ℕ → CType) → so_far_type t result ≡ type_by (option_map (meaning_of t) found) }
{
    match found {
        Some(meant) => type_of(&meant),
        None => SoFar::Base,
    }
}

/// A type may be too large. Constant time but for growth.
pub(crate) fn check_size(
    names: &mut Names,
    types: &Types,
    at: &Place,
    ty: TypeId,
) -> Result<(), NoMemory>
    requires { ty < length types.now }
    ensures { OnOk result
        ((t : ℕ → CType) → Knows t types.now → names_of t names.new
        ≡ sized at.now (t ty) (names_of t names.old)) }
{
    let fails = types.is_too_large(ty);
    names.blame(fails, at, Rule::TypeTooLarge)?;
    Ok(())
}

/// A type's name. Constant time but for growth.
pub fn name_type(names: &mut Names, types: &Types, at: &Place, ty: TypeId) -> Result<(), NoMemory>
    requires { ty < length types.now }
    ensures { OnOk result
        ((t : ℕ → CType) → Knows t types.now → names_of t names.new
        ≡ type_named at.now (t ty) (names_of t names.old)) }
{
    names.push_type_name(at, ty)?;
    check_size(names, types, at, ty)?;
    Ok(())
}
