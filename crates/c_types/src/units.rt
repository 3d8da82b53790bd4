//! Units whose trees are gone: what is left of them is their tokens and their tapes.

ghost use Rattle.std.specs.Prelude.{◌≡◌, ◌++◌, ◌∷◌, [], List, IfOk, OnOk};
ghost use Rattle.c_tape.specs.Tape.{tape_of};
ghost use Rattle.c_tree.specs.Unit.{items_of};
ghost use Rattle.c_types.specs.SourceSpelling.Keys.{AreNamesOf};
ghost use Rattle.c_types.specs.Sources.{UnitRead, unit_of};
ghost use Rattle.c_types.specs.Units.{all_but_last, AreParts, AreReduced, IsTaped};

use crate::source::Source;
use crate::source_spelling::{EarlierNames, spelling_behind};
use crate::tapes::unit_ops;
use c_lexer::Tokens;
use c_syntax::Unit;
use qual_base::NoMemory;
use std::alloc::Global;
use tape_ops::Op;
use unit_types::UnitTape;

/// Units in their order, of which the tokens and the tapes are left.
///
/// A tape takes 20 bytes for each op, and what is read from the tokens 2 bytes for each token.
#[derive(Drop)]
pub struct Units<'a> {
    names: EarlierNames,
    tokens: Vec<Tokens<'a>>,
    tapes: Vec<UnitTape>,
}

/// The ops of a unit, whose tree is let go. Linear in it.
fn ops_left(alloc: Global, unit: Unit) -> Result<Vec<Op>, NoMemory>
    ensures { IfOk result (λ ops. ops.items ≡ tape_of (items_of unit)) }
{
    unit_ops(alloc, &unit)
}

/// Adds the names of the last unit, where there is one. Linear in its tokens and their bytes, but for growth.
fn name_last(names: &mut EarlierNames, tokens: &[Tokens]) -> Result<(), NoMemory>
    ensures { OnOk result
        (AreNamesOf (all_but_last tokens.now) names.old → AreNamesOf tokens.now names.new) }
{
    match tokens.last() {
        Some(last) => names.push(last),
        None => Ok(()),
    }
}

impl<'a> Units<'a> {
    /// No units. Takes no memory.
    pub fn new(alloc: Global) -> Self
        ensures { AreReduced [] result }
    {
        Units {
            names: EarlierNames::new(alloc),
            tokens: Vec::new(alloc),
            tapes: Vec::new(alloc),
        }
    }

    /// Puts a unit behind the others, by its tokens and its tape. Linear in its tokens and their bytes, and in those of the unit
    /// before it. For want of memory nothing is said of what is left.
    pub fn push(&mut self, alloc: Global, tokens: Tokens<'a>, ops: Vec<Op>) -> Result<(), NoMemory>
        ensures { OnOk result ((units : List UnitRead) (unit : UnitRead) →
            AreReduced units self.old → IsTaped unit tokens.entry ops.items →
            AreReduced (units ++ unit ∷ []) self.new) }
    {
        name_last(&mut self.names, self.tokens.as_slice())?;
        let spelling = spelling_behind(alloc, &self.names, &tokens)?;
        self.tapes.push(UnitTape { spelling, ops })?;
        self.tokens.push(tokens)?;
        Ok(())
    }

    /// Puts a unit that has its tree behind the others. The tree is let go as soon as its tape is made. Linear in the unit, its
    /// tokens and their bytes, and in those of the unit before it. For want of memory nothing is said of what is left.
    pub fn push_source(&mut self, alloc: Global, source: Source<'a>) -> Result<(), NoMemory>
        ensures { OnOk result ((units : List UnitRead) → AreReduced units self.old →
            AreReduced (units ++ unit_of source.entry ∷ []) self.new) }
    {
        let Source { unit, tokens } = source;
        let ops = ops_left(alloc, unit)?;
        self.push(alloc, tokens, ops)
    }

    /// The tokens of the units, and their tapes.
    pub fn into_parts(self) -> (Vec<Tokens<'a>>, Vec<UnitTape>)
        ensures { (units : List UnitRead) → AreReduced units self.entry →
            AreParts units result.0.items result.1.items }
    {
        let Units { tokens, tapes, .. } = self;
        (tokens, tapes)
    }
}
