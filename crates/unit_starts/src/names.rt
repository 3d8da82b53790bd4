//! Skeletons at declared names and at names in expressions.

ghost use Rattle.std.specs.Prelude.{◌≡◌};
ghost use Rattle.type_table.specs.Rows.{type_of};
ghost use Rattle.name_rules.specs.Spellings.{place};
ghost use Rattle.name_rules.specs.Scopes.{declared_at};
ghost use Rattle.name_rules.specs.Uses.{use_at};
ghost use Rattle.row_rules.specs.Starting as rules;
ghost use Rattle.row_rules.specs.RowSteps.Starting.{naming_has};
ghost use Rattle.row_world.specs.TapeRounds.Views.{naming_of};
ghost use Rattle.name_state.specs.UnitNames.Shown.{declared_of, role_of};
ghost use Rattle.name_tables.specs.UnitSpelling.Spelled.{spelling_of};
ghost use Rattle.unit_shapes.specs.Views.{names_in, AreImplicit};
ghost use Rattle.unit_starts.specs.Views.{starts_in, around_in};

use crate::start::{Around, Start, function_at};
use expr_shapes::shape_values::ValueType;
use name_state::found_names::FoundNames;
use name_tables::name_records::{Declared, Role, Use};
use name_tables::name_scopes::Place;
use name_tables::unit_spelling::Spelling;
use qual_base::TokenId;
use row_world::tape_rounds::Naming;
use type_table::TypeTable;
use unit_shapes::ImplicitTypes;

/// Whether a declaration is of a function.
pub fn is_function(role: Role) -> bool
    ensures { result ≡ rules.is_function_role (role_of role) }
{
    match role {
        Role::Function => true,
        Role::Typedef => false,
        Role::Object => false,
        Role::Parameter(_) => false,
        Role::Field(_, _) => false,
        Role::Enumerator => false,
    }
}

/// Whether what is declared at a place is a function. Constant time.
fn is_some_function(names: &FoundNames, types: &TypeTable, at: &Place) -> bool
    ensures { result ≡ rules.is_some_function
        (declared_at (names_in types.now names.now).declared at.now) }
{
    let _ = types;
    match names.declared_at(at) {
        Some(declared) => is_function(declared.role),
        None => false,
    }
}

/// The function that a declared name belongs to: what was first declared as a function to that, other names to the function
/// around them, and what is nobody's to none. Constant time.
fn owner_there(
    names: &FoundNames,
    types: &TypeTable,
    function: &Option<Place>,
    declared: &Declared,
) -> Option<Place>
    ensures { result ≡ rules.owner_there (names_in types.now names.now) function.now
        (declared_of (type_of types.now) declared.now) }
{
    match declared.owner {
        Some(_) => {
            if is_some_function(names, types, &declared.first) {
                Some(names.link(&declared.first))
            } else {
                *function
            }
        }
        None => None,
    }
}

/// What begins at a declared name, by the function around it: a place of its type. Constant time.
fn named_start(
    names: &FoundNames,
    types: &TypeTable,
    function: &Option<Place>,
    declared: &Declared,
) -> Option<Start>
    ensures { starts_in types.now result
        ≡ rules.named_start (names_in types.now names.now) function.now
        (declared_of (type_of types.now) declared.now) }
{
    Some(Start {
        at: declared.at,
        ty: declared.ty,
        outer: true,
        owner: owner_there(names, types, function, declared),
        calls: None,
    })
}

/// What begins at a declaration, by the function around it. Constant time.
fn declared_start(
    names: &FoundNames,
    types: &TypeTable,
    function: &Option<Place>,
    declared: &Declared,
) -> Option<Start>
    ensures { starts_in types.now result
        ≡ rules.declared_start (names_in types.now names.now) function.now
        (declared_of (type_of types.now) declared.now) (role_of declared.now.role) }
{
    match declared.role {
        Role::Typedef => None,
        Role::Object => named_start(names, types, function, declared),
        Role::Function => named_start(names, types, function, declared),
        Role::Parameter(_) => named_start(names, types, function, declared),
        Role::Field(_, _) => named_start(names, types, function, declared),
        Role::Enumerator => None,
    }
}

/// What begins at the name at a token, where it is declared, by the function around it. Constant time.
pub(crate) fn name_start(
    spelling: &Spelling,
    names: &FoundNames,
    types: &TypeTable,
    function: &Option<Place>,
    token: TokenId,
) -> Option<Start>
    ensures { starts_in types.now result
        ≡ rules.some_declared_start (names_in types.now names.now) function.now
        (declared_at (names_in types.now names.now).declared
        (place (spelling_of spelling.now) token)) }
{
    match names.declared_at(&spelling.place(token)) {
        Some(declared) => declared_start(names, types, function, &declared),
        None => None,
    }
}

/// What begins at the name of a declarator, by the function in whose body that is: a function's own parameters belong to it, and
/// other parameters have no skeletons. Constant time.
pub(crate) fn had_name(
    spelling: &Spelling,
    names: &FoundNames,
    types: &TypeTable,
    around: &Around,
    naming: Naming,
    token: TokenId,
) -> Option<Start>
    ensures { starts_in types.now result
        ≡ rules.had_name
        (naming_has (spelling_of spelling.now) (names_in types.now names.now) (naming_of naming))
        (around_in (spelling_of spelling.now) (names_in types.now names.now) around.now) token }
{
    match naming {
        Naming::Name => name_start(spelling, names, types, &around.enclosing, token),
        Naming::OwnParam { function, .. } => {
            let function = function_at(spelling, names, types, &function);
            name_start(spelling, names, types, &function, token)
        }
        Naming::OtherParam => None,
        Naming::Identified { function } => {
            let function = function_at(spelling, names, types, &function);
            name_start(spelling, names, types, &function, token)
        }
    }
}

/// An instance of a function, at its name in an expression. Constant time.
fn instance(
    spelling: &Spelling,
    names: &FoundNames,
    types: &TypeTable,
    around: &Around,
    token: TokenId,
    declared: &Declared,
) -> Option<Start>
    ensures { starts_in types.now result
        ≡ rules.instance
        (around_in (spelling_of spelling.now) (names_in types.now names.now) around.now) token
        declared.now.at (type_of types.now declared.now.ty) }
{
    let _ = types;
    if around.is_quiet {
        None
    } else {
        Some(Start {
            at: spelling.place(token),
            ty: declared.ty,
            outer: true,
            owner: around.enclosing,
            calls: Some(names.link(&declared.at)),
        })
    }
}

/// What begins at a name in an expression, by what it is declared as. Constant time.
fn use_by_role(
    spelling: &Spelling,
    names: &FoundNames,
    types: &TypeTable,
    implicit: &ImplicitTypes,
    around: &Around,
    token: TokenId,
    declared: &Declared,
) -> Option<Start>
    requires { AreImplicit types.now implicit.now }
    ensures { starts_in types.now result
        ≡ rules.use_by_role
        (around_in (spelling_of spelling.now) (names_in types.now names.now) around.now) token
        (declared_of (type_of types.now) declared.now) (role_of declared.now.role) }
{
    match declared.role {
        Role::Typedef => None,
        Role::Object => None,
        Role::Function => instance(spelling, names, types, around, token, declared),
        Role::Parameter(_) => None,
        Role::Field(_, _) => None,
        Role::Enumerator => around.fresh(
            types,
            &spelling.place(token),
            ValueType::Of(implicit.plain.base),
        ),
    }
}

/// What begins at the name at a token in an expression. Constant time.
pub(crate) fn use_start(
    spelling: &Spelling,
    names: &FoundNames,
    types: &TypeTable,
    implicit: &ImplicitTypes,
    around: &Around,
    token: TokenId,
) -> Option<Start>
    requires { AreImplicit types.now implicit.now }
    ensures { starts_in types.now result
        ≡ rules.use_start
        (around_in (spelling_of spelling.now) (names_in types.now names.now) around.now) token
        (use_at (names_in types.now names.now).uses (place (spelling_of spelling.now) token)) }
{
    let at = spelling.place(token);
    match names.use_at(&at) {
        Use::Means(first) => match names.declared_at(&first) {
            Some(declared) => use_by_role(
                spelling, names, types, implicit, around, token, &declared,
            ),
            None => None,
        },
        Use::Called => around.fresh(types, &at, ValueType::PointerTo(implicit.function)),
        Use::Missing => None,
    }
}
