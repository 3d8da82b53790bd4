//! Names and types of sources.

ghost use Rattle.std.specs.Prelude.{◌≡◌, All, List, map, IfOk, IfErr};
ghost use Rattle.resolve_laws.specs.NameLaws.NameLaws.{IsSound, tape_of_source};
ghost use Rattle.type_rules.specs.Program as rules;
ghost use Rattle.type_rules.specs.Program.{HasNoFault, names_of};
ghost use Rattle.unit_shapes.specs.Views.{names_in};
ghost use Rattle.unit_types.specs.Resolved.{tapes_of};
ghost use Rattle.c_types.specs.Sources.{sources_of, IsFirstFaultUnlessMemory};
ghost use Rattle.c_types.specs.Units.{AreTapesOf};

use crate::source::Source;
use crate::tapes::unit_tapes;
use resolve_laws::name_laws::names_of_tapes;
use resolve_laws::shape_laws::{first_fault_is_found, none_is_found};
use std::alloc::Global;
use unit_types::{Program, ShapeFault, UnitTape, resolve_units};

/// The names and types of units from their tapes, or the first fault of the sources whose tapes these are: that of the earliest
/// source, there at the earliest token, of several there that of the lowest rule.
///
/// Time is linear in the tapes, but for growth and for the words and parameters of the types that are made. Memory is linear in the tapes. Sources of 2^32 and more tokens together are more than
/// there is memory for.
pub fn resolve_tapes(alloc: Global, tapes: Vec<UnitTape>) -> Result<Program, ShapeFault>
    ensures none { IfOk result
        (λ it. (sources : List rules.Source) → AreTapesOf tapes.items sources → HasNoFault sources) }
    ensures names { IfOk result
        (λ it. (sources : List rules.Source) → AreTapesOf tapes.items sources →
        names_in it.rows it.names ≡ names_of sources) }
    ensures tapes { IfOk result (λ it. it.units ≡ tapes.items) }
    ensures first { IfErr result
        (λ fault. (sources : List rules.Source) → AreTapesOf tapes.items sources →
        IsFirstFaultUnlessMemory fault sources) }
{
    names_of_tapes();
    first_fault_is_found();
    none_is_found();
    resolve_units(alloc, tapes)
}

/// The names and types of sources in their order, or their first fault: that of the earliest
/// source, there at the earliest token, of several there that of the lowest rule. Each unit is well
/// formed of some tokens, as every unit that was parsed is.
///
/// Time is linear in the units and their tokens, but for growth and for the words and parameters of
/// the types that are made. Memory is linear in the units and their tokens. Sources of 2^32 and more tokens together are more than there is
/// memory for.
pub fn resolve(alloc: Global, sources: &[Source]) -> Result<Program, ShapeFault>
    requires formed { All IsSound (sources_of sources.now) }
    ensures none { IfOk result (λ it. HasNoFault (sources_of sources.now)) }
    ensures names { IfOk result (λ it. names_in it.rows it.names
        ≡ names_of (sources_of sources.now)) }
    ensures tapes { IfOk result (λ it. tapes_of it.units
        ≡ map tape_of_source (sources_of sources.now)) }
    ensures first { IfErr result (λ fault. IsFirstFaultUnlessMemory fault
        (sources_of sources.now)) }
{
    let Ok(units) = unit_tapes(alloc, sources) else {
        return Err(ShapeFault::NoMemory);
    };
    resolve_tapes(alloc, units)
}
