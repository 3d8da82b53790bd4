//! The owner of each variable.

ghost use Rattle.std.specs.Prelude.{◌≡◌, ◌+◌, ◌≤◌, ◌++◌, [], length, map, replicate, IfOk, OnOk};
ghost use Rattle.flow_graph.specs.System.{most_variables};
ghost use Rattle.type_table.specs.Types.{size};
ghost use Rattle.name_rules.specs.Spellings.{Place};
ghost use Rattle.name_tables.specs.PlaceMap.Values.{value_at};
ghost use Rattle.row_rules.specs.Sites.{sites_among, site_places, variables_among};
ghost use Rattle.row_rules.specs.Sites.{owner_by, owners_among};
ghost use Rattle.unit_starts.specs.Views.{start_in};
ghost use Rattle.unit_starts.specs.UnitSkeletons.Numbers.{place_among};

use flow_graph::FlowGraph;
use qual_base::{NoMemory, Numbered, Owner, VarId};
use std::alloc::Global;
use type_table::TypeTable;
use unit_starts::Start;
use unit_starts::unit_skeletons::{CallSites, PlaceNumbers, find_sites};
use unit_types::Program;

/// Gives so many variables, from the first that has no owner yet, their owner. Linear in them.
#[tactic(auto, using(crate::proofs::Owners::one_owned, crate::proofs::Owners::one_counted, crate::proofs::Owners::none_left))]
fn own(graph: &mut FlowGraph, from: u32, count: u32, owner: &Owner) -> Result<(), NoMemory>
    requires known { length graph.old.owners ≡ from }
    requires few { from + count ≤ most_variables }
    ensures owners { OnOk result
        (graph.new.owners ≡ graph.old.owners ++ replicate count owner.now) }
    ensures counted { OnOk result (length graph.new.owners ≡ from + count) }
    ensures sites { OnOk result (graph.new.sites ≡ graph.old.sites) }
    ensures constraints { OnOk result (graph.new.constraints ≡ graph.old.constraints) }
{
    for number in from..from + count {
        graph.set_owner(VarId::new(number), *owner)?;
    }
    Ok(())
}

/// Gives the variables of skeletons their owners in a graph that has none yet. Linear in the variables and in the skeletons.
#[tactic(auto, using(crate::proofs::Owners::owners_next, crate::proofs::Owners::counted_next))]
fn own_all(
    graph: &mut FlowGraph,
    types: &TypeTable,
    functions: &PlaceNumbers,
    starts: &[Start],
) -> Result<(), NoMemory>
    requires none { graph.old.owners ≡ [] }
    requires few { variables_among (map (start_in types.now) starts.now) ≤ most_variables }
    ensures owners { OnOk result (graph.new.owners
        ≡ owners_among functions.now (map (start_in types.now) starts.now)) }
    ensures sites { OnOk result (graph.new.sites ≡ graph.old.sites) }
    ensures constraints { OnOk result (graph.new.constraints ≡ graph.old.constraints) }
{
    let mut from = 0u32;
    for start in starts {
        let count = start.size(types);
        own(graph, from, count, &functions.owner(&start.owner))?;
        from += count;
    }
    Ok(())
}

/// The call sites of units, in a graph that has the owners of their variables. Linear in the skeletons and in the variables.
pub(crate) fn number_sites(
    alloc: Global,
    program: &Program,
    functions: &PlaceNumbers,
    starts: &[Start],
) -> Result<CallSites, NoMemory>
    requires { variables_among (map (start_in program.now.rows) starts.now) ≤ most_variables }
    ensures sites { IfOk result (λ it. it.graph.sites
        ≡ sites_among functions.now (map (start_in program.now.rows) starts.now)) }
    ensures owners { IfOk result (λ it. it.graph.owners
        ≡ owners_among functions.now (map (start_in program.now.rows) starts.now)) }
    ensures constraints { IfOk result (λ it. it.graph.constraints ≡ []) }
    ensures places { IfOk result (λ it. (p : Place) → value_at it.places p
        ≡ place_among 0 (site_places (map (start_in program.now.rows) starts.now)) p) }
{
    let mut sites = find_sites(alloc, program.types(), functions, starts)?;
    own_all(&mut sites.graph, program.types(), functions, starts)?;
    Ok(sites)
}
