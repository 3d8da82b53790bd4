//! What items of initialisers in braces initialise (C99, 6.7.8).

ghost use Rattle.std.specs.Prelude.{◌≡◌, ℕ, List, IfOk, slice_get};
ghost use Rattle.std.specs.Prelude.{if◌then◌else◌};
ghost use Rattle.type_table.specs.declared.row.TypeRow as row;
ghost use Rattle.type_table.specs.Types.{CType};
ghost use Rattle.type_table.specs.Rows.{type_of};
ghost use Rattle.name_rules.specs.Values as rules;
ghost use Rattle.name_rules.specs.Checks.{target_of_item};
ghost use Rattle.expr_shapes.specs.ShapeValues.Views.{some_type};
ghost use Rattle.name_rules.specs.ShapeSteps.Steps as steps;
ghost use Rattle.expr_shapes.specs.ShapeStacks.Views.{braces_in, some_named};
ghost use Rattle.name_state.specs.UnitNames.Shown.{names_of};
ghost use Rattle.unit_shapes.specs.Targets.{target_of, number_behind};
ghost use Rattle.unit_shapes.specs.Views.{names_in};

use crate::members::{behind_member, member_of_type};
use expr_shapes::shape_stacks::Braces;
use name_state::unit_names::Names;
use qual_base::{NameId, NoMemory, StructId, TypeId};
use type_table::{Shape, TypeTable};

/// What an item initialises: nothing, or what has a type, where that is known.
#[derive(Clone, Copy, PartialEq, Eq, Debug, Drop)]
pub(crate) enum Target {
    Nothing,
    To(Option<TypeId>),
}

/// What the only item of a number, or of nothing, initialises: the first one all of it.
fn only_target(ty: TypeId, is_first: bool) -> Target
    ensures { (t : ℕ → CType) → target_of t result
        ≡ (if is_first then rules.to (Some (t ty)) else rules.no_target) }
{
    if is_first {
        Target::To(Some(ty))
    } else {
        Target::Nothing
    }
}

/// What an item without designators initialises in a struct. Constant time.
fn own_target(names: &Names, number: StructId, next: usize) -> Target
    ensures { (t : ℕ → CType) → target_of t result
        ≡ rules.to_own (slice_get (rules.own_of (names_of t names.now).aggregates number)
        (rules.own_number (names_of t names.now).aggregates number next)) }
{
    match names.next_own(number, next) {
        Some(own) => Target::To(Some(own.ty)),
        None => Target::Nothing,
    }
}

/// What an item without designators initialises. Constant time.
fn next_target(
    names: &Names,
    types: &TypeTable,
    ty: &Option<TypeId>,
    is_first: bool,
    next: usize,
) -> Target
    ensures { target_of (type_of types.now) result
        ≡ rules.next_target (names_in types.now names.now).aggregates
        (some_type types.now ty.now) is_first next }
{
    let Some(ty) = ty else {
        return Target::To(None);
    };
    match types.shape(*ty) {
        Shape::Ref(inside) => Target::To(Some(*inside)),
        Shape::Struct(number) => own_target(names, *number, next),
        Shape::Base => only_target(*ty, is_first),
        Shape::Void => only_target(*ty, is_first),
        Shape::Fun { .. } => Target::Nothing,
    }
}

/// What the next item initialises. Constant time.
pub(crate) fn target_in(names: &Names, types: &TypeTable, it: &Braces) -> Target
    ensures { target_of (type_of types.now) result
        ≡ steps.target_in (names_in types.now names.now) (braces_in types.now it.now) }
{
    match it {
        Braces::Whole(ty) => Target::To(*ty),
        Braces::Untargeted => Target::Nothing,
        Braces::Listed {
            ty,
            is_first,
            next,
            named,
        } => match named {
            Some(named) => named_target(types, ty, *is_first, named),
            None => next_target(names, types, ty, *is_first, *next),
        },
    }
}

/// The number of the member behind a designated one, in a list. Constant time.
pub(crate) fn number_behind(
    names: &Names,
    types: &TypeTable,
    name: NameId,
    it: &Braces,
) -> Result<usize, NoMemory>
    ensures { IfOk result (λ n. n
        ≡ number_behind (names_in types.now names.now).aggregates name
        (braces_in types.now it.now)) }
{
    match it {
        Braces::Whole(_) => Ok(0),
        Braces::Untargeted => Ok(0),
        Braces::Listed {
            ty,
            next,
            named,
            ..
        } => match named {
            Some(_) => Ok(*next),
            None => behind_member(names, types, ty, name, *next),
        },
    }
}

/// A list behind a designator of a member, behind which comes the member of this number.
/// Constant time.
pub(crate) fn with_member(
    names: &Names,
    types: &TypeTable,
    name: NameId,
    behind: usize,
    it: &Braces,
) -> Braces
    requires { behind ≡ number_behind (names_in types.now names.now).aggregates name
        (braces_in types.now it.now) }
    ensures { braces_in types.now result
        ≡ steps.with_member (names_in types.now names.now).aggregates name
        (braces_in types.now it.now) }
{
    match it {
        Braces::Whole(ty) => Braces::Whole(*ty),
        Braces::Untargeted => Braces::Untargeted,
        Braces::Listed {
            ty,
            is_first,
            named,
            ..
        } => {
            let now = match named {
                Some(named) => member_of_type(names, types, named, name),
                None => member_of_type(names, types, ty, name),
            };
            Braces::Listed {
                ty: *ty,
                is_first: *is_first,
                next: behind,
                named: Some(now),
            }
        }
    }
}

/// What an item with designators initialises, which name something of a type. Constant time.
fn named_target(
    types: &TypeTable,
    ty: &Option<TypeId>,
    is_first: bool,
    named: &Option<TypeId>,
) -> Target
    ensures { target_of (type_of types.now) result
        ≡ rules.named_target (some_type types.now ty.now) is_first (some_type types.now named.now) }
{
    let Some(ty) = ty else {
        return Target::To(None);
    };
    match types.shape(*ty) {
        Shape::Ref(inside) => Target::To(Some(*inside)),
        Shape::Struct(_) => Target::To(*named),
        Shape::Base => only_target(*ty, is_first),
        Shape::Void => only_target(*ty, is_first),
        Shape::Fun { .. } => Target::Nothing,
    }
}

/// The list of a target.
pub(crate) fn list_of(target: &Target) -> Braces
    ensures { (rows : List row.TypeRow) → braces_in rows result
        ≡ steps.list_of (target_of (type_of rows) target.now) }
{
    match target {
        Target::Nothing => Braces::Untargeted,
        Target::To(ty) => Braces::Listed {
            ty: *ty,
            is_first: true,
            next: 0,
            named: None,
        },
    }
}

/// What the next designator names a part of.
pub(crate) fn designated(it: &Braces) -> Option<TypeId>
    ensures { (rows : List row.TypeRow) → some_type rows result
        ≡ steps.designated (braces_in rows it.now) }
{
    match it {
        Braces::Whole(ty) => *ty,
        Braces::Untargeted => None,
        Braces::Listed { ty, named, .. } => match named {
            Some(named) => *named,
            None => *ty,
        },
    }
}
