//! The system of a prelude and sources.

ghost use Rattle.std.specs.Prelude.{◌≡◌, ◌<◌, ◌≤◌, List, length, IfOk, OnOk, IsErrOf};
ghost use Rattle.flow_graph.specs.System.{IsWellOwned, most_constraints, most_variables};
ghost use Rattle.flow_graph.specs.Unfolding.{NamesElements};
ghost use Rattle.lattice_core.specs.View.{orders_of};
ghost use Rattle.row_rules.specs.Sites.{variables_among};
ghost use Rattle.unit_starts.specs.PositionLaws.Positions.{positions_of};
ghost use Rattle.unit_shapes.specs.Views.{names_in};
ghost use Rattle.unit_system.specs.Systems.{starts_on};
ghost use Rattle.unit_system.specs.Numberings.{IsNumberingOf};
ghost use Rattle.c_types.specs.Sources.{UnitRead};
ghost use Rattle.constraint_rules.specs.Systems.{AreNamed, system_of};
ghost use Rattle.constraint_gen.specs.Programs.{positions_in, program_in};
ghost use Rattle.constraint_gen.specs.Generating.{IsGenerated, IsProgramOf};
ghost use Rattle.constraint_gen.specs.Listing.{is_listed, listed_at};
ghost use Rattle.constraint_gen.specs.Marking.{NumbersDiffer};
ghost use Rattle.row_rules.specs.Annotations.{has_access};

use crate::listing::listed;
use crate::marking::marks;
use c_lexer::Tokens;
use c_types::Program;
use flow_graph::FlowGraph;
use index_words::Prelude;
use lattice_core::Lattices;
use owned_laws::element_laws::elements_are_named;
use owned_laws::systems_are_owned;
use qual_base::VarId;
use row_laws::constraints_are_found;
use row_laws::start_laws::{selections_of_program_are_found, starts_of_program_are_found};
use row_world::access_lattices;
use std::alloc::Global;
use unit_starts::position_laws::{positions_are_counted, positions_stand};
use unit_starts::unit_skeletons::Skeletons;
use unit_system::{
    GenerateFault, NumberedUnits, Numbering, UnitSystem, constrain_units, number_units,
};

/// The skeletons of a program, its constraints with its call sites and the owners of its variables, and which variables a report
/// lists: those of names where a source declares them, ascending. Memory is linear in the variables, the call sites and the
/// constraints.
#[derive(Drop)]
pub struct Generated {
    pub skeletons: Skeletons,
    pub graph: FlowGraph,
    pub listed: Vec<VarId>,
}

/// What has numbers in units, and the variables that a report lists.
#[derive(Drop)]
struct Listed {
    numbering: Numbering,
    listed: Vec<VarId>,
}

/// Whether some lattice has an element that bounds accesses. Linear in the elements of all lattices.
fn bounds_accesses(lattices: &Lattices) -> bool
    ensures { result ≡ has_access lattices.now }
{
    access_lattices(lattices) != 0
}

/// Numbers units and lists variables; where the skeletons begin is let go.
fn number(
    alloc: Global,
    units: &[Tokens],
    program: &Program,
    access: bool,
) -> Result<Listed, GenerateFault>
    ensures numbers { IfOk result (λ it. IsNumberingOf access program.now it.numbering) }
    ensures listed { IfOk result (λ it. NumbersDiffer units.now → it.listed.items
        ≡ listed_at (is_listed
        units.now (names_in program.now.rows program.now.names))
        0 (positions_of (starts_on access program.now))) }
    ensures few { OnOk result (variables_among (starts_on access program.now) ≤ most_variables) }
    ensures too_many { IsErrOf result GenerateFault.TooManyVariables
        → most_variables < variables_among (starts_on access program.now) }
    ensures apart { IsErrOf result GenerateFault.TooManyConstraints → ⊥ }
{
    let NumberedUnits { starts, numbering } = match number_units(alloc, program, access) {
        Ok(it) => it,
        Err(fault) => return Err(fault),
    };
    match listed(alloc, units, program, starts.as_slice()) {
        Ok(listed) => Ok(Listed { numbering, listed }),
        Err(_) => Err(GenerateFault::NoMemory),
    }
}

/// The system of constraints of units that have their numbers.
fn constrain(
    alloc: Global,
    units: &[Tokens],
    program: &Program,
    prelude: &Prelude,
    lattices: &Lattices,
    numbering: Numbering,
) -> Result<UnitSystem, GenerateFault>
    requires { IsNumberingOf (has_access lattices.now) program.now numbering }
    ensures system { IfOk result (λ it. (all : List UnitRead) →
        IsProgramOf all units.now program.now →
        it.graph ≡ system_of (program_in lattices.now prelude.now all)) }
    ensures skeletons { IfOk result (λ it. it.skeletons ≡ numbering.skeletons) }
    ensures few { OnOk result ((all : List UnitRead) →
        IsProgramOf all units.now program.now →
        length (system_of (program_in lattices.now prelude.now all)).constraints
        ≤ most_constraints) }
    ensures too_many { IsErrOf result GenerateFault.TooManyConstraints →
        (all : List UnitRead) → IsProgramOf all units.now program.now →
        most_constraints < length
        (system_of (program_in lattices.now prelude.now all)).constraints }
    ensures apart { IsErrOf result GenerateFault.TooManyVariables → ⊥ }
{
    starts_of_program_are_found();
    selections_of_program_are_found();
    constraints_are_found();
    let Ok(marks) = marks(alloc, units) else {
        return Err(GenerateFault::NoMemory);
    };
    constrain_units(alloc, program, prelude, lattices, &marks, numbering)
}

/// The system of constraints of units in their order, whose names and types are known: their qualifier variables, their call
/// sites with the owner of each variable, their constraints, and which variables a report lists. A prelude is unit 0; its index
/// words are those of `prelude`, and its names are not listed.
///
/// More than 16,777,216 variables are answered before any constraint is made; more than 67,108,864 constraints only where the
/// variables are not too many. Time is linear in the tokens and the units, in the variables and in the constraints, but for growth,
/// and for what is looked for among the members of structs. Memory is linear in the
/// tokens, the units, the variables and the constraints.
///
/// No flow joins two functions but by the calls of a site, and each constant and bound names an element of its lattice: the system
/// is one that can be solved.
pub fn generate(
    alloc: Global,
    units: &[Tokens],
    program: &Program,
    prelude: &Prelude,
    lattices: &Lattices,
) -> Result<Generated, GenerateFault>
    ensures made { IfOk result (λ it. (all : List UnitRead) →
        IsProgramOf all units.now program.now →
        IsGenerated all (program_in lattices.now prelude.now all) it) }
    ensures owned { IfOk result (λ it. (all : List UnitRead) →
        IsProgramOf all units.now program.now → IsWellOwned it.graph) }
    ensures named { IfOk result (λ it. (all : List UnitRead) →
        IsProgramOf all units.now program.now → AreNamed lattices.now it.graph) }
    ensures elements { IfOk result (λ it. (all : List UnitRead) →
        IsProgramOf all units.now program.now →
        NamesElements it.graph (orders_of lattices.now)) }
    ensures few_variables { OnOk result ((all : List UnitRead) →
        IsProgramOf all units.now program.now →
        length (positions_in (program_in lattices.now prelude.now all)) ≤ most_variables) }
    ensures few_constraints { OnOk result ((all : List UnitRead) →
        IsProgramOf all units.now program.now →
        length (system_of (program_in lattices.now prelude.now all)).constraints
        ≤ most_constraints) }
    ensures too_many_variables { IsErrOf result GenerateFault.TooManyVariables →
        (all : List UnitRead) → IsProgramOf all units.now program.now →
        most_variables < length (positions_in (program_in lattices.now prelude.now all)) }
    ensures fit_variables { IsErrOf result GenerateFault.TooManyConstraints →
        (all : List UnitRead) → IsProgramOf all units.now program.now →
        length (positions_in (program_in lattices.now prelude.now all)) ≤ most_variables }
    ensures too_many_constraints { IsErrOf result GenerateFault.TooManyConstraints →
        (all : List UnitRead) → IsProgramOf all units.now program.now →
        most_constraints < length
        (system_of (program_in lattices.now prelude.now all)).constraints }
{
    starts_of_program_are_found();
    positions_are_counted();
    positions_stand();
    systems_are_owned();
    elements_are_named();
    lattices.law();
    let Listed { numbering, listed } = match number(
        alloc,
        units,
        program,
        bounds_accesses(lattices),
    ) {
        Ok(it) => it,
        Err(fault) => return Err(fault),
    };
    match constrain(alloc, units, program, prelude, lattices, numbering) {
        Ok(UnitSystem { skeletons, graph }) => Ok(Generated {
            skeletons,
            graph,
            listed,
        }),
        Err(fault) => Err(fault),
    }
}
