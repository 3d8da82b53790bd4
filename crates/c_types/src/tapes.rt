//! The tapes of sources.

ghost use Rattle.std.specs.Prelude.{◌≡◌, ◌++◌, ◌∷◌, [], List, false, map, IfOk, OnOk};
ghost use Rattle.c_lexer.specs.Tokens.{Lexed};
ghost use Rattle.c_tape.specs.Tape.{tape_of};
ghost use Rattle.c_tree.specs.Unit.{items_of};
ghost use Rattle.resolve_laws.specs.NameLaws.NameLaws.{tape_of_source};
ghost use Rattle.c_types.specs.SourceSpelling.Keys.{AreNamesOf};
ghost use Rattle.unit_types.specs.Resolved.{tape_of as tape_of_unit, tapes_of};
ghost use Rattle.c_types.specs.Sources.{unit_of, source_behind, sources_of};

use crate::ops::ops_of;
use crate::source::Source;
use crate::source_spelling::{EarlierNames, spelling_behind};
use c_syntax::Unit;
use c_tape::tape;
use qual_base::NoMemory;
use std::alloc::Global;
use tape_ops::Op;
use unit_types::UnitTape;

/// The tape of a unit. Linear in it.
pub(crate) fn unit_ops(alloc: Global, unit: &Unit) -> Result<Vec<Op>, NoMemory>
    ensures { IfOk result (λ ops. ops.items ≡ tape_of (items_of unit.now)) }
{
    let nodes = tape(alloc, unit)?;
    let ops = ops_of(alloc, nodes.as_slice())?;
    Ok(ops)
}

/// The tape of a source behind the units whose names these are. Linear in the unit, its tokens and
/// their bytes.
fn unit_tape(alloc: Global, earlier: &EarlierNames, source: &Source) -> Result<UnitTape, NoMemory>
    ensures { IfOk result (λ it. (units : List Lexed) → AreNamesOf units earlier.now
        → tape_of_unit it ≡ tape_of_source (source_behind units (unit_of source.now))) }
{
    let ops = unit_ops(alloc, &source.unit)?;
    let spelling = spelling_behind(alloc, earlier, &source.tokens)?;
    Ok(UnitTape { spelling, ops })
}

/// Adds the names of a source, unless it is the last one.
fn go_on(earlier: &mut EarlierNames, source: &Source, is_last: bool) -> Result<(), NoMemory>
    ensures { OnOk result (is_last ≡ false → (units : List Lexed) → AreNamesOf units earlier.old
        → AreNamesOf (units ++ source.now.tokens ∷ []) earlier.new) }
{
    if is_last {
        Ok(())
    } else {
        earlier.push(&source.tokens)
    }
}

/// The tapes of sources, with what is read from their tokens. Linear in the sources, their tokens
/// and their bytes, but for growth.
pub(crate) fn unit_tapes(alloc: Global, sources: &[Source]) -> Result<Vec<UnitTape>, NoMemory>
    ensures { IfOk result (λ units. tapes_of units.items
        ≡ map tape_of_source (sources_of sources.now)) }
{
    let mut earlier = EarlierNames::new(alloc);
    let mut units = Vec::new(alloc);
    for number in 0..sources.len() {
        let source = &sources[number];
        let unit = unit_tape(alloc, &earlier, source)?;
        units.push(unit)?;
        go_on(&mut earlier, source, number + 1 == sources.len())?;
    }
    Ok(units)
}
