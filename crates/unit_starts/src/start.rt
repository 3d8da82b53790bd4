//! A skeleton that begins, and what is around it.

ghost use Rattle.std.specs.Prelude.{◌≡◌, ◌≤◌, ◌&&◌};
ghost use Rattle.flow_graph.specs.System.{most_variables};
ghost use Rattle.type_table.specs.Types.{size};
ghost use Rattle.type_table.specs.Rows.{type_of};
ghost use Rattle.qual_types.specs.Skel.{within};
ghost use Rattle.expr_shapes.specs.ShapeValues.Views.{value_type, some_value_type, some_type};
ghost use Rattle.row_rules.specs.RowSteps.Rounds as round_rules;
ghost use Rattle.row_rules.specs.RowSteps.Starting.{function_at};
ghost use Rattle.row_rules.specs.Starting.{first_of};
ghost use Rattle.name_rules.specs.Scopes.{declared_at};
ghost use Rattle.name_rules.specs.Spellings.{place};
ghost use Rattle.name_tables.specs.UnitSpelling.Spelled.{spelling_of};
ghost use Rattle.unit_shapes.specs.Views.{names_in};
ghost use Rattle.unit_starts.specs.Views.{start_in, starts_in, fresh_at, some_fresh_at};

use expr_shapes::shape_values::ValueType;
use name_state::found_names::FoundNames;
use name_tables::name_scopes::Place;
use name_tables::unit_spelling::Spelling;
use qual_base::{TokenId, TypeId};
use row_world::tape_rounds::Rounds;
use type_table::TypeTable;

/// A skeleton that begins at a place, of a type, or of a reference to it where `outer` is true. Its variables belong to the function that was first declared at `owner`. At a
/// function's name in an expression it is an instance of the function that was first declared at `calls`. Functions go by their links.
#[derive(Clone, Copy, PartialEq, Eq, Debug)]
pub struct Start {
    pub at: Place,
    pub ty: TypeId,
    pub outer: bool,
    pub owner: Option<Place>,
    pub calls: Option<Place>,
}

impl Start {
    /// How many variables the skeleton has. Constant time.
    pub fn size(&self, types: &TypeTable) -> u32
        requires { size (start_in types.now self.now).type ≤ most_variables }
        ensures { result ≡ size (start_in types.now self.now).type }
    {
        let size = types.size(self.ty);
        if self.outer { size + 1 } else { size }
    }
}

/// The function in whose body something stands, by its link, whether nothing is fresh there, and whether some lattice bounds accesses.
#[derive(Clone, Copy, PartialEq, Eq, Debug, Drop)]
pub(crate) struct Around {
    pub(crate) enclosing: Option<Place>,
    pub(crate) is_quiet: bool,
    /// Whether some lattice bounds accesses.
    pub(crate) access: bool,
}

/// The function that was declared where the name at a token was, by its link. Constant time.
fn first_declared(
    spelling: &Spelling,
    names: &FoundNames,
    types: &TypeTable,
    token: TokenId,
) -> Option<Place>
    ensures { result ≡ first_of (names_in types.now names.now)
        (declared_at (names_in types.now names.now).declared
        (place (spelling_of spelling.now) token)) }
{
    let _ = types;
    match names.declared_at(&spelling.place(token)) {
        Some(declared) => Some(names.link(&declared.first)),
        None => None,
    }
}

/// The function whose name is at a token, where there is one, by its link. Constant time.
pub(crate) fn function_at(
    spelling: &Spelling,
    names: &FoundNames,
    types: &TypeTable,
    token: &Option<TokenId>,
) -> Option<Place>
    ensures { result ≡ function_at (spelling_of spelling.now) (names_in types.now names.now)
        token.now }
{
    match token {
        Some(token) => first_declared(spelling, names, types, *token),
        None => None,
    }
}

impl Around {
    /// What is around an op. Constant time.
    pub(crate) fn new(
        spelling: &Spelling,
        names: &FoundNames,
        types: &TypeTable,
        rounds: &Rounds,
    ) -> Self
        ensures enclosing { result.enclosing
            ≡ function_at (spelling_of spelling.now) (names_in types.now names.now)
            rounds.now.body }
        ensures quiet { result.is_quiet ≡ round_rules.is_quiet rounds.now }
        ensures access { result.access ≡ rounds.now.access }
    {
        Around {
            enclosing: function_at(spelling, names, types, &rounds.body()),
            is_quiet: rounds.is_quiet(),
            access: rounds.has_access(),
        }
    }

    /// What is around the innermost that is begun. Constant time.
    pub(crate) fn outside(
        spelling: &Spelling,
        names: &FoundNames,
        types: &TypeTable,
        rounds: &Rounds,
    ) -> Self
        ensures enclosing { result.enclosing
            ≡ function_at (spelling_of spelling.now) (names_in types.now names.now)
            rounds.now.body }
        ensures quiet { result.is_quiet ≡ round_rules.is_quiet (round_rules.left rounds.now) }
        ensures access { result.access ≡ rounds.now.access }
    {
        Around {
            enclosing: function_at(spelling, names, types, &rounds.body()),
            is_quiet: rounds.is_quiet_outside(),
            access: rounds.has_access(),
        }
    }

    /// Whether the pointer that `&` makes is to carry the one by which its operand came to its place, if it came by one.
    pub(crate) fn carries(&self, aims: bool) -> bool
        ensures { result ≡ (aims && self.now.access) }
    {
        aims && self.access
    }

    /// A fresh skeleton of a type, or of a reference to it. Constant time.
    fn begin(&self, types: &TypeTable, at: &Place, ty: TypeId, outer: bool) -> Option<Start>
        ensures { starts_in types.now result
            ≡ fresh_at self.now at.now (within outer (type_of types.now ty)) }
    {
        let _ = types;
        if self.is_quiet {
            None
        } else {
            Some(Start {
                at: *at,
                ty,
                outer,
                owner: self.enclosing,
                calls: None,
            })
        }
    }

    /// A fresh skeleton of a type. Constant time.
    pub(crate) fn fresh(&self, types: &TypeTable, at: &Place, ty: ValueType) -> Option<Start>
        ensures { starts_in types.now result
            ≡ fresh_at self.now at.now (value_type types.now ty) }
    {
        match ty {
            ValueType::Of(ty) => self.begin(types, at, ty, false),
            ValueType::PointerTo(ty) => self.begin(types, at, ty, true),
        }
    }

    /// A fresh skeleton of a type where that is known. Constant time.
    pub(crate) fn some_fresh(
        &self,
        types: &TypeTable,
        at: &Place,
        ty: &Option<ValueType>,
    ) -> Option<Start>
        ensures { starts_in types.now result
            ≡ some_fresh_at self.now at.now (some_value_type types.now ty.now) }
    {
        match ty {
            Some(ty) => self.fresh(types, at, *ty),
            None => None,
        }
    }

    /// A fresh skeleton of a type that was named. Constant time.
    pub(crate) fn fresh_named(
        &self,
        types: &TypeTable,
        at: &Place,
        ty: &Option<TypeId>,
    ) -> Option<Start>
        ensures { starts_in types.now result
            ≡ some_fresh_at self.now at.now (some_type types.now ty.now) }
    {
        match ty {
            Some(ty) => self.fresh(types, at, ValueType::Of(*ty)),
            None => None,
        }
    }
}
