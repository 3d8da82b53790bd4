//! Call sites by numbers.

ghost use Rattle.std.specs.Prelude.{◌≡◌, ◌++◌, ◌∷◌, [], None, length, map, OnOk, IfOk};
ghost use Rattle.name_rules.specs.Spellings.{Place};
ghost use Rattle.name_tables.specs.PlaceMap.Values.{value_at, or_else, there};
ghost use Rattle.row_rules.specs.Sites.{site_of, sites_among, place_of, site_places};
ghost use Rattle.unit_starts.specs.Views.{start_in};
ghost use Rattle.unit_starts.specs.UnitSkeletons.Found.{site_at};
ghost use Rattle.unit_starts.specs.UnitSkeletons.Numbers.{place_among};

use crate::Start;
use crate::unit_skeletons::place_numbers::PlaceNumbers;
use flow_graph::{FlowGraph, Site};
use name_tables::name_scopes::Place;
use name_tables::place_map::PlaceMap;
use qual_base::{FuncId, NoMemory, Numbered, Owner, SiteId};
use std::alloc::Global;
use type_table::TypeTable;

/// A graph with the call sites of units, in the order in which they begin, and the number of the first at each place. Memory is
/// linear in them and in the tokens.
#[derive(Drop)]
pub struct CallSites {
    pub graph: FlowGraph,
    pub places: PlaceMap<SiteId>,
}

impl CallSites {
    /// No call sites. Takes no memory.
    fn new(alloc: Global) -> Self
        ensures sites { result.graph.sites ≡ [] }
        ensures constraints { result.graph.constraints ≡ [] }
        ensures owners { result.graph.owners ≡ [] }
        ensures places { (p : Place) → value_at result.places p ≡ None }
    {
        CallSites {
            graph: FlowGraph::new(alloc),
            places: PlaceMap::new(alloc),
        }
    }

    /// One more. Constant time but for growth.
    fn push(&mut self, at: &Place, target: FuncId, owner: Owner) -> Result<(), NoMemory>
        ensures sites { OnOk result (self.new.graph.sites
            ≡ self.old.graph.sites ++ site_at at.now target owner ∷ []) }
        ensures constraints { OnOk result
            (self.new.graph.constraints ≡ self.old.graph.constraints) }
        ensures owners { OnOk result (self.new.graph.owners ≡ self.old.graph.owners) }
        ensures places { OnOk result ((p : Place) → value_at self.new.places p
            ≡ or_else (value_at self.old.places p) (there at.now (length self.old.graph.sites) p)) }
    {
        let number = self.graph.sites();
        if number == 4_294_967_295 {
            return Err(NoMemory);
        }
        let (unit, token) = *at;
        self.graph.add_site(Site {
            unit,
            token,
            target,
            owner,
        })?;
        self.places.add(at, &SiteId::new(number))
    }

    /// What a skeleton adds: a call site where it is an instance of a function. Constant time but for growth.
    fn add(
        &mut self,
        types: &TypeTable,
        functions: &PlaceNumbers,
        start: &Start,
    ) -> Result<(), NoMemory>
        ensures sites { OnOk result (self.new.graph.sites ≡ self.old.graph.sites
            ++ site_of functions.now (start_in types.now start.now) start.now.calls) }
        ensures constraints { OnOk result
            (self.new.graph.constraints ≡ self.old.graph.constraints) }
        ensures owners { OnOk result (self.new.graph.owners ≡ self.old.graph.owners) }
        ensures places { OnOk result ((p : Place) → value_at self.new.places p
            ≡ or_else (value_at self.old.places p) (place_among (length self.old.graph.sites)
            (place_of (start_in types.now start.now) start.now.calls) p)) }
    {
        let _ = types;
        match &start.calls {
            Some(function) => {
                let target = FuncId::new(functions.number(function));
                let owner = functions.owner(&start.owner);
                self.push(&start.at, target, owner)
            }
            None => Ok(()),
        }
    }
}

/// The call sites of units. Linear in their skeletons, but for growth.
#[tactic(auto, using(crate::proofs::UnitSkeletons::Siting::sites_end))]
pub fn find_sites(
    alloc: Global,
    types: &TypeTable,
    functions: &PlaceNumbers,
    starts: &[Start],
) -> Result<CallSites, NoMemory>
    ensures sites { IfOk result (λ it. it.graph.sites
        ≡ sites_among functions.now (map (start_in types.now) starts.now)) }
    ensures constraints { IfOk result (λ it. it.graph.constraints ≡ []) }
    ensures owners { IfOk result (λ it. it.graph.owners ≡ []) }
    ensures places { IfOk result (λ it. (p : Place) → value_at it.places p
        ≡ place_among 0 (site_places (map (start_in types.now) starts.now)) p) }
{
    let mut it = CallSites::new(alloc);
    for start in starts {
        it.add(types, functions, start)?;
    }
    Ok(it)
}
