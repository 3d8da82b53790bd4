//! The answers for preludes that do not read.

ghost use Rattle.std.specs.Prelude.{◌≢◌, IfOk};
ghost use Rattle.cq_prelude.specs.declared.fault.PreludeFault.TheVariants as Stops;
ghost use Rattle.cqual_tool.specs.declared.status.Status.TheVariants as Statuses;
ghost use Rattle.cqual_tool.specs.Statuses.{Says};
ghost use Rattle.cqual_tool.specs.Preludes.{prelude_line};

use crate::answer::Answer;
use crate::faults::{source_refused, spot_refused};
use crate::{shapes, syntax};
use cq_prelude::PreludeFault;
use qual_base::NoMemory;
use std::alloc::Global;

/// The answer for a prelude with this first fault.
pub fn prelude_refused(
    alloc: Global,
    file: &str,
    bytes: &[u8],
    fault: &PreludeFault,
) -> Result<Answer, NoMemory>
    ensures line { IfOk result
        (Says Statuses.Malformed (prelude_line file.now bytes.now fault.now)) }
    ensures reason { IfOk result (λ _. fault.now ≢ Stops.NoMemory) }
{
    match fault {
        PreludeFault::Lex(fault) => source_refused(alloc, file, bytes, fault),
        PreludeFault::Parse(rule, spot) => {
            spot_refused(alloc, file, bytes, spot, syntax::code_of(*rule))
        }
        PreludeFault::HasBody(spot) => spot_refused(alloc, file, bytes, spot, b"P1"),
        PreludeFault::BadIndex(spot) => spot_refused(alloc, file, bytes, spot, b"P2"),
        PreludeFault::Shape(fault, spot) => {
            spot_refused(alloc, file, bytes, spot, shapes::code_of(fault.rule))
        }
        PreludeFault::NoMemory => Err(NoMemory),
    }
}
