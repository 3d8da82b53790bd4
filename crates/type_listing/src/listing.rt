//! From the bytes of a lattice file and of a source to lines.

ghost use Rattle.std.specs.Prelude.{◌≤◌, All, IfOk, length};
ghost use Rattle.resolve_laws.specs.NameLaws.NameLaws.{IsSound};
ghost use Rattle.c_types.specs.Sources.{sources_of};

use crate::lines::put_lines;
use crate::text::Listed;
use c_lexer::lex;
use c_parser::parse;
use c_types::{Source, resolve};
use expr_types::ExpressionTypes;
use lattice_core::Lattices;
use lattice_file::read_lattices;
use qual_base::{NoMemory, Numbered, UnitNo};
use std::alloc::Global;

/// Why there are no lines: a file is refused, or memory was wanting.
#[derive(Clone, Copy, PartialEq, Eq, Debug, Drop)]
pub enum Failure {
    Refused,
    NoMemory,
}

impl From<NoMemory> for Failure {
    fn from(_: NoMemory) -> Failure {
        Failure::NoMemory
    }
}

/// A well-formed source, alone.
fn sources<'a>(
    alloc: Global,
    lattices: &Lattices,
    bytes: &'a [u8],
) -> Result<Vec<Source<'a>>, Failure>
    requires { length bytes.now ≤ 16777216 }
    ensures { IfOk result (λ all. All IsSound (sources_of all.items)) }
{
    let words = lattices.words(alloc)?;
    let Ok(tokens) = lex(alloc, UnitNo::new(1), false, bytes, &words) else {
        return Err(Failure::Refused);
    };
    let Ok(unit) = parse(alloc, &tokens) else {
        return Err(Failure::Refused);
    };
    match vec![in alloc; Source { unit, tokens }] {
        Ok(all) => Ok(all),
        Err(_) => Err(Failure::NoMemory),
    }
}

/// The lines of a source over the lattices of a file.
pub fn list(alloc: Global, lattice: &[u8], file: &str, bytes: &[u8]) -> Result<Vec<u8>, Failure>
    requires lattice { length lattice.now ≤ 16777216 }
    requires source { length bytes.now ≤ 16777216 }
{
    let Ok(lattices) = read_lattices(alloc, false, lattice) else {
        return Err(Failure::Refused);
    };
    let all = sources(alloc, &lattices, bytes)?;
    let Ok(program) = resolve(alloc, &all) else {
        return Err(Failure::Refused);
    };
    let types = ExpressionTypes::of(alloc, &program)?;
    let mut out = Vec::new(alloc);
    for source in &all {
        let it = Listed {
            alloc,
            file,
            tokens: &source.tokens,
            program: &program,
        };
        put_lines(&it, &mut out, &types)?;
    }
    Ok(out)
}
