//! Names and types of units, found on their tapes.

ghost use Rattle.std.specs.Prelude.{◌≡◌, ◌++◌, [], ℕ, IfOk, IfErr, OnOk};
ghost use Rattle.type_table.specs.Types.{CType};
ghost use Rattle.name_state.specs.NameTypes.Known.{Knows};
ghost use Rattle.name_rules.specs.Linking.{body_faults};
ghost use Rattle.name_state.specs.UnitNames.Shown.{names_of};
ghost use Rattle.unit_shapes.specs.Faults.{some_fault_of, IsFirstOf};
ghost use Rattle.unit_shapes.specs.Views.{names_in, AreImplicit};
ghost use Rattle.unit_types.specs.Faults.{IsFirstUnlessMemory};
ghost use Rattle.unit_types.specs.Resolved.{tapes_of, names_on, faults_among, faults_on};

use crate::fault::ShapeFault;
use crate::program::{Program, UnitTape};
use c_names::name_unit;
use name_state::found_names::FoundNames;
use name_state::name_types::Types;
use name_state::unit_names::Names;
use qual_base::NoMemory;
use std::alloc::Global;
use type_table::TypeTable;
use unit_shapes::{Fault, ImplicitTypes, first_of_names, judge_tape, keep_of_names};

/// Units with their first fault, if they have one.
#[derive(Drop)]
struct Judged {
    program: Program,
    first: Option<Fault>,
}

/// The names of units and their types, one unit behind the other.
fn name_units(
    alloc: Global,
    types: &mut Types,
    implicit: &ImplicitTypes,
    units: &[UnitTape],
) -> Result<Names, NoMemory>
    requires { AreImplicit types.old implicit.now }
    ensures named { IfOk result (λ names. (t : ℕ → CType) → Knows t types.new
        → names_of t names ≡ names_on (tapes_of units.now)) }
    ensures implicit { OnOk result (AreImplicit types.new implicit.now) }
{
    let mut names = Names::new(alloc)?;
    for unit in units {
        names = name_unit(alloc, names, &unit.spelling, types, implicit, &unit.ops)?;
    }
    Ok(names)
}

/// The first fault of names and of bodies in several units.
fn first_of_declarations(alloc: Global, names: &FoundNames) -> Result<Option<Fault>, NoMemory>
    ensures { IfOk result (λ first. (t : ℕ → CType) → IsFirstOf (some_fault_of first)
        ((names_of t names.now).faults ++ body_faults (names_of t names.now))) }
{
    let mut best = first_of_names(names.names());
    let bodies = names.body_faults(alloc)?;
    keep_of_names(&mut best, &bodies);
    Ok(best)
}

/// The first fault of units, of their names, of their bodies and of their expressions.
fn first_fault(
    alloc: Global,
    names: &FoundNames,
    types: &TypeTable,
    implicit: &ImplicitTypes,
    units: &[UnitTape],
) -> Result<Option<Fault>, NoMemory>
    requires { AreImplicit types.now implicit.now }
    ensures { IfOk result (λ first. IsFirstOf (some_fault_of first)
        ((names_in types.now names.now).faults
        ++ (body_faults (names_in types.now names.now)
        ++ faults_among (names_in types.now names.now) (tapes_of units.now)))) }
{
    let mut best = first_of_declarations(alloc, names)?;
    for unit in units {
        judge_tape(
            alloc,
            &mut best,
            &unit.spelling,
            names.names(),
            types,
            implicit,
            &unit.ops,
        )?;
    }
    Ok(best)
}

/// The names and types of units, and their first fault.
fn judge(alloc: Global, units: Vec<UnitTape>) -> Result<Judged, NoMemory>
    ensures names { IfOk result (λ it. names_in it.program.rows it.program.names
        ≡ names_on (tapes_of units.items)) }
    ensures units { IfOk result (λ it. it.program.units ≡ units.items) }
    ensures first { IfOk result (λ it. IsFirstOf (some_fault_of it.first)
        (faults_on (tapes_of units.items))) }
{
    let mut types = Types::new(alloc)?;
    let implicit = ImplicitTypes::push(alloc, &mut types)?;
    let named = name_units(alloc, &mut types, &implicit, &units)?;
    let found = FoundNames::new(alloc, named)?;
    let first = first_fault(alloc, &found, types.table(), &implicit, &units)?;
    let program = Program {
        types,
        implicit,
        found,
        units,
    };
    Ok(Judged { program, first })
}

/// The names and types of units in their order, from their tapes and what is read from their
/// tokens, or their first fault: that of the earliest unit, there at the earliest token, of several
/// there that of the lowest rule. A source sees the objects and functions of the prelude's file
/// scope, and nothing of another source. Expressions are judged by all names, those declared behind
/// them too.
///
/// Time is linear in the tapes, but for growth, for looking names up in the scopes that are open,
/// and for the words and parameters of the types that are made. Memory is linear in the tapes.
pub fn resolve_units(alloc: Global, units: Vec<UnitTape>) -> Result<Program, ShapeFault>
    ensures names { IfOk result (λ it. names_in it.rows it.names
        ≡ names_on (tapes_of units.items)) }
    ensures units { IfOk result (λ it. it.units ≡ units.items) }
    ensures none { IfOk result (λ it. faults_on (tapes_of units.items) ≡ []) }
    ensures first { IfErr result (λ fault. IsFirstUnlessMemory fault
        (faults_on (tapes_of units.items))) }
{
    match judge(alloc, units) {
        Ok(it) => {
            let Judged { program, first } = it;
            match first {
                Some(fault) => Err(ShapeFault::Found(fault)),
                None => Ok(program),
            }
        }
        Err(NoMemory) => Err(ShapeFault::NoMemory),
    }
}
