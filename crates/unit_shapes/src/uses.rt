//! What names in expressions and types' names give.

ghost use Rattle.std.specs.Prelude.{◌≡◌, IfOk, OnOk};
ghost use Rattle.type_table.specs.Rows.{type_of};
ghost use Rattle.name_rules.specs.Checks.{type_declared};
ghost use Rattle.name_rules.specs.Scopes.{declared_at};
ghost use Rattle.name_rules.specs.Uses.{use_at, use_shape, declared_shape, some_declared_shape, type_named_at};
ghost use Rattle.name_state.specs.NameTypes.Known.{Grows};
ghost use Rattle.expr_shapes.specs.ShapeValues.Views.{shape_in, some_type};
ghost use Rattle.name_state.specs.UnitNames.Shown.{use_of, role_of};
ghost use Rattle.unit_shapes.specs.Views.{names_in, AreImplicit};

use expr_shapes::Plain;
use expr_shapes::shape_values::{ExprShape, ValueType};
use name_state::name_types::{SoFar, Types};
use name_state::unit_names::Names;
use name_tables::name_records::{Declared, Role, Use};
use name_tables::name_scopes::Place;
use qual_base::{NoMemory, TypeId};
use std::alloc::Global;
use type_table::TypeTable;

/// The numbers of types that no declaration writes: those that operators give, and that of a
/// function that is called without a declaration.
#[derive(Clone, Copy, PartialEq, Eq, Debug, Drop)]
pub struct ImplicitTypes {
    pub plain: Plain,
    pub function: TypeId,
}

/// What a declared name is in an expression. Constant time.
fn declared_shape(implicit: &ImplicitTypes, types: &TypeTable, declared: &Declared) -> ExprShape
    requires { AreImplicit types.now implicit.now }
    ensures { shape_in types.now result
        ≡ declared_shape (role_of declared.now.role) (type_of types.now declared.now.ty) }
{
    let _ = types;
    match declared.role {
        Role::Typedef => ExprShape::Place(Some(declared.ty)),
        Role::Object => ExprShape::Place(Some(declared.ty)),
        Role::Function => ExprShape::Place(Some(declared.ty)),
        Role::Parameter(_) => ExprShape::Place(Some(declared.ty)),
        Role::Field(_, _) => ExprShape::Place(Some(declared.ty)),
        Role::Enumerator => ExprShape::Value(Some(ValueType::Of(implicit.plain.base))),
    }
}

/// What the first declaration at a place is in an expression. Constant time.
fn shape_at(names: &Names, implicit: &ImplicitTypes, types: &TypeTable, at: &Place) -> ExprShape
    requires { AreImplicit types.now implicit.now }
    ensures { shape_in types.now result
        ≡ some_declared_shape (declared_at (names_in types.now names.now).declared at.now) }
{
    match names.declared_at(at) {
        Some(declared) => declared_shape(implicit, types, &declared),
        None => ExprShape::Place(None),
    }
}

/// What the name at a place is in an expression. Constant time.
pub(crate) fn shape_of_use(
    names: &Names,
    implicit: &ImplicitTypes,
    types: &TypeTable,
    at: &Place,
) -> ExprShape
    requires { AreImplicit types.now implicit.now }
    ensures { shape_in types.now result
        ≡ use_shape (names_in types.now names.now)
        (use_at (names_in types.now names.now).uses at.now) }
{
    match names.use_at(at) {
        Use::Means(first) => shape_at(names, implicit, types, &first),
        Use::Called => ExprShape::Place(Some(implicit.function)),
        Use::Missing => ExprShape::Place(None),
    }
}

/// The type of the first declaration at a place. Constant time.
pub(crate) fn type_declared(names: &Names, types: &TypeTable, at: &Place) -> Option<TypeId>
    ensures { some_type types.now result
        ≡ type_declared (declared_at (names_in types.now names.now).declared at.now) }
{
    let _ = types;
    match names.declared_at(at) {
        Some(declared) => Some(declared.ty),
        None => None,
    }
}

/// The type whose name begins at a place. Constant time.
pub(crate) fn type_named(names: &Names, types: &TypeTable, at: &Place) -> Option<TypeId>
    ensures { some_type types.now result
        ≡ type_named_at (names_in types.now names.now).type_names at.now }
{
    let _ = types;
    names.type_at(at)
}

impl ImplicitTypes {
    /// Adds these types to those of a program. Constant time but for growth.
    pub fn push(alloc: Global, types: &mut Types) -> Result<ImplicitTypes, NoMemory>
        ensures implicit { IfOk result (λ it. AreImplicit types.new it) }
        ensures grown { OnOk result (Grows types.old types.new) }
    {
        let base = types.base();
        let void = types.specified(alloc, Vec::new(alloc), &SoFar::Void)?;
        let text = types.pointer(alloc, Vec::new(alloc), base)?;
        let params = Vec::new(alloc);
        let function = types.function(alloc, params, true, Vec::new(alloc), base)?;
        let plain = Plain { base, void, text };
        Ok(ImplicitTypes { plain, function })
    }
}
