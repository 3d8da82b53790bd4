//! The system of units.

ghost use Rattle.std.specs.Prelude.{◌≡◌, ℕ, ◌<◌, ◌≤◌, length, map, IfOk, OnOk, IsErrOf};
ghost use Rattle.flow_graph.specs.System.{most_constraints, most_variables};
ghost use Rattle.row_rules.specs.Sites.{variables_among};
ghost use Rattle.name_rules.specs.Spellings.{Place};
ghost use Rattle.name_tables.specs.PlaceFlags.Flags.{flag_at};
ghost use Rattle.row_rules.specs.Starting.{flag_among};
ghost use Rattle.unit_starts.specs.Selecting.{AddsSelections};
ghost use Rattle.unit_starts.specs.Views.{start_in};
ghost use Rattle.unit_system.specs.Sharing.{meant_by};
ghost use Rattle.unit_system.specs.Systems.{starts_on, selections_on, system_on};
ghost use Rattle.unit_system.specs.Numberings.{IsNumberingOf};
ghost use Rattle.row_rules.specs.Annotations.{has_access};

use crate::adding::{Shared, add_units};
use crate::fault::{GenerateFault, of_constraints, of_variables};
use crate::owning::number_sites;
use flow_graph::FlowGraph;
use index_words::Prelude;
use lattice_core::Lattices;
use name_tables::place_flags::PlaceFlags;
use name_tables::place_map::PlaceMap;
use qual_base::{Elem, LatticeNo, NoMemory, SiteId};
use row_world::access_lattices;
use std::alloc::Global;
use unit_starts::unit_skeletons::{CallSites, Skeletons, functions_of, number_skeletons};
use unit_starts::{Start, Starts, add_starts};
use unit_types::Program;

/// Skeletons by numbers, and a graph that has call sites and the owners of variables, before there are constraints. Memory is
/// linear in the variables, in the call sites and in the tokens.
#[derive(Drop)]
pub struct Numbering {
    pub skeletons: Skeletons,
    pub graph: FlowGraph,
    /// The first call site at each place.
    pub places: PlaceMap<SiteId>,
    /// Which associations of the selection by a type at each place are candidates.
    pub candidates: PlaceFlags,
}

/// Units by numbers, and where their skeletons begin, 40 bytes a skeleton: it is of no use where constraints are made, and may be let go
/// before.
#[derive(Drop)]
pub struct NumberedUnits {
    /// Where the skeletons begin, in the order of their numbers.
    pub starts: Starts,
    pub numbering: Numbering,
}

/// The skeletons of units, and their constraints with their call sites and the owners of their variables. Memory is linear in the
/// variables, the call sites and the constraints.
#[derive(Drop)]
pub struct UnitSystem {
    pub skeletons: Skeletons,
    pub graph: FlowGraph,
}

/// Where the skeletons of units begin, and which associations are candidates. Linear in their tapes, but for the members of the structs
/// one of which an op names.
fn starts_of(
    alloc: Global,
    program: &Program,
    access: bool,
    candidates: &mut PlaceFlags,
) -> Result<Starts, NoMemory>
    ensures starts { IfOk result
        (λ it. map (start_in program.now.rows) it ≡ starts_on access program.now) }
    ensures selections { OnOk result
        (AddsSelections candidates.old candidates.new (selections_on program.now)) }
{
    let mut found = Starts::new(alloc);
    let units = program.units();
    for unit in units {
        add_starts(
            alloc,
            &mut found,
            candidates,
            &unit.spelling,
            program.found_names(),
            program.types(),
            program.implicit(),
            access,
            &unit.ops,
        )?;
    }
    Ok(found)
}

/// Numbers the skeletons and the call sites of units. Linear in the variables.
fn number(
    alloc: Global,
    program: &Program,
    access: bool,
    starts: &[Start],
    candidates: PlaceFlags,
) -> Result<Numbering, GenerateFault>
    requires starts { map (start_in program.now.rows) starts.now ≡ starts_on access program.now }
    requires candidates { (p : Place) (n : ℕ)
        → flag_at candidates p n ≡ flag_among (selections_on program.now) p n }
    ensures numbers { IfOk result (λ it. IsNumberingOf access program.now it) }
    ensures few { OnOk result (variables_among (starts_on access program.now) ≤ most_variables) }
    ensures too_many { IsErrOf result GenerateFault.TooManyVariables
        → most_variables < variables_among (starts_on access program.now) }
    ensures apart { IsErrOf result GenerateFault.TooManyConstraints → ⊥ }
{
    let functions = match functions_of(alloc, program.types(), program.found_names()) {
        Ok(functions) => functions,
        Err(NoMemory) => return Err(GenerateFault::NoMemory),
    };
    let skeletons = match number_skeletons(alloc, program.types(), &functions, starts) {
        Ok(skeletons) => skeletons,
        Err(fault) => return Err(of_variables(fault)),
    };
    match number_sites(alloc, program, &functions, starts) {
        Ok(CallSites { graph, places }) => Ok(Numbering {
            skeletons,
            graph,
            places,
            candidates,
        }),
        Err(NoMemory) => Err(GenerateFault::NoMemory),
    }
}

/// The skeletons of units, one unit behind the other, and their call sites by numbers, with the owner of each variable, and where the
/// skeletons begin.
///
/// There may be too many variables, or want of memory; never too many constraints. Linear in the tapes and in the variables, but for
/// growth and for the members of the structs one of which an op names; memory is linear in the tokens and in the variables.
pub fn number_units(
    alloc: Global,
    program: &Program,
    access: bool,
) -> Result<NumberedUnits, GenerateFault>
    ensures numbers { IfOk result (λ it. IsNumberingOf access program.now it.numbering) }
    ensures starts { IfOk result
        (λ it. map (start_in program.now.rows) it.starts ≡ starts_on access program.now) }
    ensures few { OnOk result (variables_among (starts_on access program.now) ≤ most_variables) }
    ensures too_many { IsErrOf result GenerateFault.TooManyVariables
        → most_variables < variables_among (starts_on access program.now) }
    ensures apart { IsErrOf result GenerateFault.TooManyConstraints → ⊥ }
{
    let mut candidates = PlaceFlags::new(alloc);
    let Ok(starts) = starts_of(alloc, program, access, &mut candidates) else {
        return Err(GenerateFault::NoMemory);
    };
    let numbering = number(alloc, program, access, starts.as_slice(), candidates)?;
    Ok(NumberedUnits { starts, numbering })
}

/// Adds the constraints of units, one unit behind the other, to a graph that has their call sites and owners, where it is known which
/// lattice and element each annotation word names, and which numbers each index word of a prelude has.
///
/// There may be too many constraints, or want of memory; never too many variables. Linear in the tapes and in the constraints, but for
/// growth and for what is looked for among the members of structs; memory is linear in the constraints.
pub fn constrain_units(
    alloc: Global,
    program: &Program,
    prelude: &Prelude,
    lattices: &Lattices,
    marks: &PlaceMap<(LatticeNo, Elem)>,
    numbering: Numbering,
) -> Result<UnitSystem, GenerateFault>
    requires { IsNumberingOf (has_access lattices.now) program.now numbering }
    ensures system { IfOk result (λ it. it.graph
        ≡ system_on (meant_by lattices.now marks.now prelude.now) program.now) }
    ensures skeletons { IfOk result (λ it. it.skeletons ≡ numbering.skeletons) }
    ensures few { OnOk result (length
        (system_on (meant_by lattices.now marks.now prelude.now) program.now).constraints
        ≤ most_constraints) }
    ensures too_many { IsErrOf result GenerateFault.TooManyConstraints → most_constraints < length
        (system_on (meant_by lattices.now marks.now prelude.now) program.now).constraints }
    ensures apart { IsErrOf result GenerateFault.TooManyVariables → ⊥ }
{
    let Numbering {
        skeletons,
        mut graph,
        places,
        candidates,
    } = numbering;
    // Most programs have fewer constraints than variables.
    graph.reserve(skeletons.vars().count());
    let shared = Shared {
        program,
        names: program.found_names(),
        vars: skeletons.vars(),
        starts: skeletons.starts(),
        sites: &places,
        candidates: &candidates,
        lattices,
        access: access_lattices(lattices),
        marks,
        prelude,
    };
    match add_units(alloc, &shared, &mut graph) {
        Ok(()) => {
            graph.law();
            Ok(UnitSystem { skeletons, graph })
        }
        Err(fault) => Err(of_constraints(fault)),
    }
}
