//! Taking whole files.

ghost use Rattle.std.specs.Prelude.{◌≡◌, ◌<◌, [], ◌∷◌, IfOk, codes};
ghost use Rattle.outside.specs.Readings.{Reading, ReadOn, stands};
ghost use Rattle.cqual_tool.specs.declared.status.Status.TheVariants as Statuses;
ghost use Rattle.cqual_tool.specs.Answering.{Finds};
ghost use Rattle.cqual_tool.specs.Statuses.{Says};
ghost use Rattle.cqual_tool.specs.Texts.{malformed_line};

use crate::answer::{Answer, malformed};
use outside::{Files, TakeFault, take_all};
use qual_base::NoMemory;
use std::alloc::Global;

/// The most bytes that a lattice file may have.
pub const LATTICE_LIMIT: usize = 1_048_576;

/// The most bytes that a prelude or a source may have.
pub const SOURCE_LIMIT: usize = 16_777_216;

/// The most bytes that all sources together may have.
pub const TOTAL_LIMIT: usize = 67_108_864;

/// The most bytes that a saved report or certificate may have.
pub const SAVED_LIMIT: usize = 268_435_456;

/// Why nothing is written.
#[derive(Clone, Copy, PartialEq, Eq, Debug)]
pub enum Failure {
    ReadFault,
    NoMemory,
}

impl From<NoMemory> for Failure {
    ghost use Rattle.std.specs.Prelude.{◌≡◌};
    ghost use Rattle.cqual_tool.specs.declared.taking.Failure.TheVariants as failures;

    ghost from_gives = { λ _ failure. failure ≡ failures.NoMemory };

    fn from(_: NoMemory) -> Failure {
        Failure::NoMemory
    }
}

/// The bytes of a file; none where it has more than the limit.
pub fn taken<F: Files>(
    alloc: Global,
    files: &mut F,
    name: &str,
    limit: usize,
) -> Result<Option<Vec<u8>>, Failure>
    requires { limit < usize.MAX }
    ensures read { (reading : Reading)
        × ReadOn (stands (F.log files.old) (F.failed files.old) (F.contents files.old))
        (stands (F.log files.new) (F.failed files.new) (F.contents files.new)) (reading ∷ [])
        × (reading.name ≡ name.now) × Finds limit reading result }
{
    match take_all(alloc, files, name, limit) {
        Ok(bytes) => Ok(Some(bytes)),
        Err(TakeFault::TooLarge) => Ok(None),
        Err(TakeFault::ReadFault) => Err(Failure::ReadFault),
        Err(TakeFault::NoMemory) => Err(Failure::NoMemory),
    }
}

/// The answer for a file that has more bytes than its limit.
pub fn too_large(alloc: Global, file: &str) -> Result<Answer, NoMemory>
    ensures { IfOk result (Says Statuses.Malformed (malformed_line file.now (codes "F2"))) }
{
    Ok(malformed(alloc, file, b"F2")?)
}
