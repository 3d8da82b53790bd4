//! What is known of names.

ghost use Rattle.std.specs.Prelude.{◌≡◌, ℕ, IfOk};
ghost use Rattle.type_table.specs.Types.{CType};
ghost use Rattle.name_rules.specs.Units.{no_names};
ghost use Rattle.name_state.specs.UnitNames.Shown.{names_of};

use name_lists::NameList;
use name_tables::name_records::{Aggregates, Bodies, Declarations, Fault, Things, TypeNames, Uses};
use name_tables::name_scopes::{Place, Scope, Scopes};
use qual_base::{NameId, NoMemory, UnitNo};
use std::alloc::Global;

/// What is known of names: declarations so far, scopes, tags, and what was found of uses. Memory is linear in the ops that
/// were gone through.
///
/// A call that wants memory in vain leaves it as it may be, and of no more use.
#[derive(Drop)]
pub struct Names {
    pub(crate) alloc: Global,
    pub(crate) declared: Declarations,
    pub(crate) scopes: Scopes,
    pub(crate) aggregates: Aggregates,
    pub(crate) things: Things,
    pub(crate) statics: Vec<(UnitNo, NameId)>,
    pub(crate) round: NameList<Place>,
    pub(crate) uses: Uses,
    pub(crate) type_names: TypeNames,
    pub(crate) faults: Vec<Fault>,
    pub(crate) bodies: Bodies,
    pub(crate) enclosing: Option<Place>,
    pub(crate) kept: Option<Scope>,
}

impl Names {
    /// Nothing is known but the file scope, which is open.
    #[tactic(auto, using(crate::proofs::UnitNames::Begun::begun))]
    pub fn new(alloc: Global) -> Result<Self, NoMemory>
        ensures { IfOk result (λ s. (t : ℕ → CType) → names_of t s ≡ no_names) }
    {
        let mut scopes = Scopes::new(alloc);
        scopes.enter()?;
        Ok(Names {
            alloc,
            declared: Declarations::new(alloc),
            scopes,
            aggregates: Aggregates::new(alloc),
            things: Things::new(alloc),
            statics: Vec::new(alloc),
            round: NameList::new(alloc),
            uses: Uses::new(alloc),
            type_names: TypeNames::new(alloc),
            faults: Vec::new(alloc),
            bodies: Bodies::new(alloc),
            enclosing: None,
            kept: None,
        })
    }
}
