//! Declarations, by where their things were declared first.

ghost use Rattle.std.specs.Prelude.{◌≡◌, ℕ, OnOk, option_map};
ghost use Rattle.type_table.specs.Types.{CType};
ghost use Rattle.name_rules.specs.Declaring.{owner_where, declaring, the_thing, declared_here};
ghost use Rattle.name_state.specs.UnitNames.Shown.{names_of, meaning_of, role_of};

use crate::name_uses::listed::is_place;
use crate::unit_names::Names;
use name_tables::name_records::{Declared, Role};
use name_tables::name_scopes::{Meant, Place};
use qual_base::{NameId, NoMemory, TokenId, TypeId};

/// A name with its token.
#[derive(Clone, Copy, PartialEq, Eq, Debug, Drop)]
pub struct Named {
    pub token: TokenId,
    pub name: NameId,
}

/// The owner of a declaration: a further one belongs where the first does.
fn owner(names: &Names, first: &Place, at: &Place, own: &Option<Place>) -> Option<Place>
    ensures { (t : ℕ → CType) → result
        ≡ owner_where (names_of t names.now) first.now at.now own.now }
{
    if is_place(first, at) {
        *own
    } else {
        names.owner_at(first)
    }
}

/// One more declaration of a thing that was declared first at a place. Constant time but for growth.
pub(crate) fn declare_first(
    names: &mut Names,
    at: &Place,
    role: &Role,
    first: &Place,
    ty: TypeId,
    own: &Option<Place>,
) -> Result<(), NoMemory>
    ensures { OnOk result
        ((t : ℕ → CType) → names_of t names.new
        ≡ declaring at.now (role_of role.now) first.now (t ty) own.now (names_of t names.old)) }
{
    let owner = owner(names, first, at, own);
    names.push_declared(Declared {
        at: *at,
        role: *role,
        first: *first,
        ty,
        owner,
    })
}

/// Where the thing was first declared that a name stands for; here, where it stands for none.
fn the_thing(found: Option<Meant>, at: &Place) -> Place
    ensures { (t : ℕ → CType) → result ≡ the_thing (option_map (meaning_of t) found) at.now }
{
    match found {
        Some(Meant::Thing(first)) => first,
        Some(Meant::Type(_)) | None => *at,
    }
}

/// A declaration in its scope. Constant time but for growth.
pub(crate) fn declare_here(
    names: &mut Names,
    at: &Place,
    name: NameId,
    role: &Role,
    ty: TypeId,
    own: &Option<Place>,
) -> Result<(), NoMemory>
    ensures { OnOk result
        ((t : ℕ → CType) → names_of t names.new
        ≡ declared_here at.now name (role_of role.now) (t ty) own.now (names_of t names.old)) }
{
    let first = the_thing(names.meaning_here(name), at);
    declare_first(names, at, role, &first, ty, own)?;
    names.bind(name, Meant::Thing(first))?;
    Ok(())
}
