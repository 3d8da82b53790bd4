//! The answers for units whose names or types have a fault.

ghost use Rattle.std.specs.Prelude.{◌≡◌, ◌≢◌, IfOk};
ghost use Rattle.unit_types.specs.declared.fault.ShapeFault.TheVariants as Stops;
ghost use Rattle.annotate.specs.Scenes.{units_of};
ghost use Rattle.cqual_tool.specs.declared.status.Status.TheVariants as Statuses;
ghost use Rattle.cqual_tool.specs.Statuses.{Says};
ghost use Rattle.unit_shapes.specs.Faults.{rule_of};
ghost use Rattle.cqual_tool.specs.Shapes.{shape_code, shape_line, unit_line};

use crate::answer::{Answer, malformed};
use crate::syntax::token_refused;
use annotate::{UnitText, find_unit};
use c_types::{Rule, ShapeFault};
use qual_base::{NoMemory, TokenId, UnitNo};
use std::alloc::Global;

/// The code of a rule of names and types.
pub fn code_of(rule: Rule) -> &'static [u8]
    ensures { result.now ≡ shape_code (rule_of rule) }
{
    match rule {
        Rule::Undeclared => b"H1",
        Rule::NotPointer => b"H2",
        Rule::NotFunction => b"H3",
        Rule::NoMember => b"H4",
        Rule::ArgCount => b"H5",
        Rule::NotPlace => b"H6",
        Rule::DefinedTwice => b"H7",
        Rule::TypeTooLarge => b"H8",
        Rule::NoType => b"H9",
    }
}

/// The answer for a fault at a token of a unit; for the whole source where there is no such unit.
fn at_fault(
    alloc: Global,
    file: &str,
    units: &[UnitText<'_>],
    unit: UnitNo,
    token: TokenId,
    code: &[u8],
) -> Result<Answer, NoMemory>
    ensures { IfOk result (Says Statuses.Malformed
        (unit_line file.now (units_of units.now) unit token code.now)) }
{
    match find_unit(units, unit) {
        Some(found) => token_refused(alloc, found.file, found.tokens, token, code),
        None => Ok(malformed(alloc, file, code)?),
    }
}

/// The answer for units with this first fault.
pub fn names_refused(
    alloc: Global,
    file: &str,
    units: &[UnitText<'_>],
    fault: ShapeFault,
) -> Result<Answer, NoMemory>
    ensures line { IfOk result
        (Says Statuses.Malformed (shape_line file.now (units_of units.now) fault)) }
    ensures reason { IfOk result (λ _. fault ≢ Stops.NoMemory) }
{
    match &fault {
        ShapeFault::Found(it) => {
            let (unit, token) = it.at;
            at_fault(alloc, file, units, unit, token, code_of(it.rule))
        }
        ShapeFault::NoMemory => Err(NoMemory),
    }
}
