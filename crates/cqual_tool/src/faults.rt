//! The answers for files that do not read.

ghost use Rattle.std.specs.Prelude.{◌≡◌, ◌≢◌, ◌++◌, OnOk, IfOk, codes};
ghost use Rattle.lattice_file.specs.declared.reading.LatticeFileFault.TheVariants as Faults;
ghost use Rattle.c_lexer.specs.declared.lexing.LexFault.TheVariants as Stops;
ghost use Rattle.cqual_tool.specs.declared.status.Status.TheVariants as Statuses;
ghost use Rattle.annotate.specs.Texts.{spot_text, at_text};
ghost use Rattle.cqual_tool.specs.Faults.{block_code, named_code, block_text, lattice_line};
ghost use Rattle.cqual_tool.specs.Faults.{lex_line, placed_line};
ghost use Rattle.cqual_tool.specs.Statuses.{Says};

use crate::answer::{Answer, malformed, placed};
use annotate::{put, put_at, put_decimal, put_spot};
use c_lexer::LexFault;
use lattice_core::{LatticeFault, Name};
use lattice_file::LatticeFileFault;
use qual_base::{NoMemory, Spot};
use std::alloc::{AllocError, Global};

/// A code and the number of a block.
fn put_code(out: &mut Vec<u8>, code: &[u8], number: u32) -> Result<(), AllocError>
    ensures { OnOk result (out.new.items ≡ out.old.items ++ block_code code.now number) }
{
    put(out, code)?;
    put(out, b" ")?;
    put_decimal(out, u64::from(number))
}

/// A code, the number of a block, and a name of it.
fn put_named(out: &mut Vec<u8>, code: &[u8], number: u32, name: &Name) -> Result<(), AllocError>
    ensures { OnOk result (out.new.items ≡ out.old.items ++ named_code code.now number name.now) }
{
    put_code(out, code, number)?;
    put(out, b" ")?;
    put(out, name.bytes())
}

/// A code, the number of a block, and two names of it.
fn put_two_named(
    out: &mut Vec<u8>,
    code: &[u8],
    number: u32,
    one: &Name,
    other: &Name,
) -> Result<(), AllocError>
    ensures { OnOk result (out.new.items
        ≡ out.old.items ++ (named_code code.now number one.now ++ codes " " ++ other.now)) }
{
    put_named(out, code, number, one)?;
    put(out, b" ")?;
    put(out, other.bytes())
}

/// Why a block makes no lattice; nothing for want of memory.
fn put_block_fault(out: &mut Vec<u8>, number: u32, fault: &LatticeFault) -> Result<(), AllocError>
    ensures { OnOk result (out.new.items ≡ out.old.items ++ block_text number fault.now) }
{
    match fault {
        LatticeFault::TooMany => put_code(out, b"L6", number),
        LatticeFault::Repeated(name) => put_named(out, b"L1", number, name),
        LatticeFault::UnknownName(name) => put_named(out, b"L2", number, name),
        LatticeFault::LevelMix(one, other) => put_two_named(out, b"L5", number, one, other),
        LatticeFault::Cycle(one, other) => put_two_named(out, b"L3", number, one, other),
        LatticeFault::NotALattice(one, other) => put_two_named(out, b"L4", number, one, other),
        LatticeFault::NoMemory => Ok(()),
    }
}

/// The answer for a block that makes no lattice.
fn block_refused(
    alloc: Global,
    file: &str,
    number: u32,
    fault: &LatticeFault,
) -> Result<Answer, NoMemory>
    ensures { IfOk result
        (Says Statuses.Malformed (lattice_line file.now (Faults.Block number fault.now))) }
{
    let mut code = Vec::new(alloc);
    put_block_fault(&mut code, number, fault)?;
    Ok(malformed(alloc, file, &code)?)
}

/// The answer for a text that is none of blocks from a place on.
fn grammar_refused(alloc: Global, file: &str, line: u64, column: u64) -> Result<Answer, NoMemory>
    ensures { IfOk result
        (Says Statuses.Malformed (lattice_line file.now (Faults.Grammar line column))) }
{
    let mut place = Vec::new(alloc);
    put_at(&mut place, file.as_bytes(), line, column)?;
    Ok(placed(alloc, &place, b"L7")?)
}

/// The answer for a name that an earlier block has.
fn shared_refused(alloc: Global, file: &str, name: &Name) -> Result<Answer, NoMemory>
    ensures { IfOk result
        (Says Statuses.Malformed (lattice_line file.now (Faults.SharedName name.now))) }
{
    let mut code = Vec::new(alloc);
    put(&mut code, b"L9 ")?;
    put(&mut code, name.bytes())?;
    Ok(malformed(alloc, file, &code)?)
}

/// The answer for more than 16 blocks.
fn many_refused(alloc: Global, file: &str) -> Result<Answer, NoMemory>
    ensures { IfOk result (Says Statuses.Malformed (lattice_line file.now Faults.TooManyLattices)) }
{
    Ok(malformed(alloc, file, b"L8")?)
}

/// The answer for a lattice file that does not read.
pub fn lattice_refused(
    alloc: Global,
    file: &str,
    fault: &LatticeFileFault,
) -> Result<Answer, NoMemory>
    ensures line { IfOk result (Says Statuses.Malformed (lattice_line file.now fault.now)) }
    ensures reason { IfOk result (λ _. fault.now ≢ Faults.NoMemory) }
{
    match fault {
        LatticeFileFault::Block(number, fault) => block_refused(alloc, file, *number, fault),
        LatticeFileFault::Grammar { line, column } => grammar_refused(alloc, file, *line, *column),
        LatticeFileFault::TooManyLattices => many_refused(alloc, file),
        LatticeFileFault::SharedName(name) => shared_refused(alloc, file, name),
        LatticeFileFault::NoMemory => Err(NoMemory),
    }
}

/// The answer for a fault at a spot of a file.
pub(crate) fn spot_refused(
    alloc: Global,
    file: &str,
    bytes: &[u8],
    spot: &Spot,
    code: &[u8],
) -> Result<Answer, NoMemory>
    ensures { IfOk result
        (Says Statuses.Malformed (placed_line (spot_text file.now bytes.now spot.now) code.now)) }
{
    let mut place = Vec::new(alloc);
    put_spot(&mut place, file, bytes, spot)?;
    Ok(placed(alloc, &place, code)?)
}

/// The answer for a file whose bytes spell no tokens.
pub fn source_refused(
    alloc: Global,
    file: &str,
    bytes: &[u8],
    fault: &LexFault,
) -> Result<Answer, NoMemory>
    ensures line { IfOk result (Says Statuses.Malformed (lex_line file.now bytes.now fault.now)) }
    ensures reason { IfOk result (λ _. fault.now ≢ Stops.NoMemory) }
{
    match fault {
        LexFault::BadByte(spot) => spot_refused(alloc, file, bytes, spot, b"X1"),
        LexFault::Unended(spot) => spot_refused(alloc, file, bytes, spot, b"X2"),
        LexFault::UnknownQualifier(spot) => spot_refused(alloc, file, bytes, spot, b"X3"),
        LexFault::NoMemory => Err(NoMemory),
    }
}
