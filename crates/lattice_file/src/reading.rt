//! Reading a lattice file: its blocks, then the lattice of each.

ghost use Rattle.std.specs.Prelude.{◌≡◌, ◌≤◌, ◌<◌, ◌^◌, ◌-◌, true, false, length, is_some};
ghost use Rattle.std.specs.Prelude.{slice_index, IfOk, IfErr};
ghost use Rattle.lattice_file.specs.Blocks.{IsBuilt, AreAllBuilt};
ghost use Rattle.lattice_file.specs.Faults.{IsBlockFault, IsBuildFault, Reads, IsFileFault};
ghost use Rattle.lattice_file.specs.Faults.{IsAnswerFor};
ghost use Rattle.lattice_file.specs.Text.{IsLatticeText, stands_in_words};
ghost use Rattle.lattice_file.specs.Steps.{TextLexeme, next};
ghost use Rattle.lattice_file.specs.Extents.{LexemeGoes};
ghost use Rattle.lattice_file.specs.Reading.{standing_of, IsLexemeFault, IsTextFault};

use crate::blocks::{Block, Reader};
use crate::lexemes::{is_word_byte, skip_gap, text_end, word_end};
use crate::places::line_and_column;
use crate::sharing::first_shared;
use lattice_core::{Lattice, LatticeFault, Lattices, Name};
use qual_base::NoMemory;
use std::alloc::{AllocError, Global};

/// Why a lattice file does not read.
#[derive(Drop, Debug)]
pub enum LatticeFileFault {
    /// The entries and order lines of the block with this number, counted from 1, make no lattice.
    Block(u32, LatticeFault),
    /// The first byte through which no lattice text begins; one past the last byte where the whole file begins one.
    Grammar { line: u64, column: u64 },
    /// There are more than 16 blocks.
    TooManyLattices,
    /// An earlier block has this name.
    SharedName(Name),
    NoMemory,
}

impl From<AllocError> for LatticeFileFault {
    ghost use Rattle.std.specs.Prelude.{◌≡◌};
    ghost use Rattle.lattice_file.specs.declared.reading.LatticeFileFault.TheVariants.{
      NoMemory as OutOfMemory,
    };

    ghost from_gives = { λ _ fault. fault ≡ OutOfMemory };

    fn from(_e: AllocError) -> LatticeFileFault {
        LatticeFileFault::NoMemory
    }
}

/// Why bytes are no text of blocks.
#[derive(Clone, Copy, PartialEq, Eq, Debug)]
enum TextFault {
    At(usize),
    NoMemory,
}

impl From<NoMemory> for LatticeFileFault {
    ghost use Rattle.std.specs.Prelude.{◌≡◌};
    ghost use Rattle.lattice_file.specs.declared.reading.LatticeFileFault.TheVariants.{
      NoMemory as OutOfMemory,
    };

    ghost from_gives = { λ _ fault. fault ≡ OutOfMemory };

    fn from(_e: NoMemory) -> LatticeFileFault {
        LatticeFileFault::NoMemory
    }
}

impl From<AllocError> for TextFault {
    ghost use Rattle.std.specs.Prelude.{◌≡◌};
    ghost use Rattle.lattice_file.specs.declared.reading.TextFault.TheVariants.{
      NoMemory as OutOfMemory,
    };

    ghost from_gives = { λ _ fault. fault ≡ OutOfMemory };

    fn from(_e: AllocError) -> TextFault {
        TextFault::NoMemory
    }
}

/// The place behind the word at a place, which the reader takes.
fn take_word(reader: &mut Reader, bytes: &[u8], at: usize) -> Result<usize, TextFault>
    requires within { at < length bytes.now }
    requires word { stands_in_words (slice_index bytes.now at) ≡ true }
    ensures later { IfOk result (λ end. at < end) }
    ensures within { IfOk result (λ end. end ≤ length bytes.now) }
    ensures goes { IfOk result
        (LexemeGoes (standing_of reader.old) (standing_of reader.new) bytes.now at) }
    ensures fails { IfErr result (IsLexemeFault reader.old bytes.now at) }
{
    let end = word_end(bytes, at);
    let word = &bytes[at..end];
    let front = reader.word_front(word);
    if front < word.len() {
        return Err(TextFault::At(at + front));
    }
    if reader.take_word(word)? {
        Ok(end)
    } else {
        Err(TextFault::At(end))
    }
}

/// The place behind the colour text at a place, which the reader takes.
fn take_text(reader: &mut Reader, bytes: &[u8], at: usize) -> Result<usize, TextFault>
    requires within { at < length bytes.now }
    requires quote { slice_index bytes.now at ≡ 34 }
    requires wanted { is_some (next (standing_of reader.old) TextLexeme) ≡ true }
    ensures later { IfOk result (λ end. at < end) }
    ensures within { IfOk result (λ end. end ≤ length bytes.now) }
    ensures goes { IfOk result
        (LexemeGoes (standing_of reader.old) (standing_of reader.new) bytes.now at) }
    ensures fails { IfErr result (IsLexemeFault reader.old bytes.now at) }
{
    let end = text_end(bytes, at + 1);
    if end == bytes.len() || bytes[end] != b'"' {
        return Err(TextFault::At(end));
    }
    reader.take_text();
    Ok(end + 1)
}

/// The place behind the sign at a place, which the reader takes.
fn take_sign(reader: &mut Reader, bytes: &[u8], at: usize) -> Result<usize, TextFault>
    requires within { at < length bytes.now }
    requires no_word { stands_in_words (slice_index bytes.now at) ≡ false }
    requires no_text { slice_index bytes.now at ≡ 34 →
        is_some (next (standing_of reader.old) TextLexeme) ≡ false }
    ensures later { IfOk result (λ end. at < end) }
    ensures within { IfOk result (λ end. end ≤ length bytes.now) }
    ensures goes { IfOk result
        (LexemeGoes (standing_of reader.old) (standing_of reader.new) bytes.now at) }
    ensures fails { IfErr result (IsLexemeFault reader.old bytes.now at) }
{
    if reader.take_sign(bytes[at])? {
        Ok(at + 1)
    } else {
        Err(TextFault::At(at))
    }
}

/// The place behind the lexeme at a place, which the reader takes.
fn take_lexeme(reader: &mut Reader, bytes: &[u8], at: usize) -> Result<usize, TextFault>
    requires { at < length bytes.now }
    ensures later { IfOk result (λ end. at < end) }
    ensures within { IfOk result (λ end. end ≤ length bytes.now) }
    ensures goes { IfOk result
        (LexemeGoes (standing_of reader.old) (standing_of reader.new) bytes.now at) }
    ensures fails { IfErr result (IsLexemeFault reader.old bytes.now at) }
{
    if is_word_byte(bytes[at]) {
        return take_word(reader, bytes, at);
    }
    if bytes[at] == b'"' && reader.wants_text() {
        return take_text(reader, bytes, at);
    }
    take_sign(reader, bytes, at)
}

/// The blocks of a text, in one pass over it.
fn read_blocks(alloc: Global, wide: bool, bytes: &[u8]) -> Result<Vec<Block>, TextFault>
    ensures text { IfOk result (λ blocks. IsLatticeText wide blocks.items bytes.now) }
    ensures first { IfErr result (IsTextFault wide bytes.now) }
{
    let mut reader = Reader::new(alloc, wide);
    let mut at = 0;
    loop {
        let start = match skip_gap(bytes, at) {
            Ok(start) => start,
            Err(place) => return Err(TextFault::At(place)),
        };
        if start == bytes.len() {
            return match reader.finish() {
                Some(blocks) => Ok(blocks),
                None => Err(TextFault::At(start)),
            };
        }
        at = take_lexeme(&mut reader, bytes, start)?;
    }
}

/// The lattice of a block that follows so many others.
fn build_next(alloc: Global, block: Block, before: u8) -> Result<Lattice, LatticeFileFault>
    ensures built { IfOk result (IsBuilt block) }
    ensures refused { IfErr result (IsBlockFault block before) }
{
    match block.build(alloc) {
        Ok(lattice) => Ok(lattice),
        Err(LatticeFault::NoMemory) => Err(LatticeFileFault::NoMemory),
        Err(fault) => Err(LatticeFileFault::Block(u32::from(before) + 1, fault)),
    }
}

/// The lattices of blocks, in their order.
fn build_all(alloc: Global, blocks: Vec<Block>) -> Result<Lattices, LatticeFileFault>
    requires { length blocks.items ≤ 16 }
    ensures built { IfOk result (AreAllBuilt blocks.items) }
    ensures refused { IfErr result (IsBuildFault blocks.items) }
{
    let mut all = Lattices::new(alloc);
    for block in blocks {
        let lattice = build_next(alloc, block, all.len())?;
        all.push(lattice)?;
    }
    Ok(all)
}

/// The lattices of the blocks of a file, or the first reason why there are none.
fn lattices_of(alloc: Global, blocks: Vec<Block>) -> Result<Lattices, LatticeFileFault>
    ensures { IsAnswerFor blocks.items result }
{
    if blocks.len() > 16 {
        return Err(LatticeFileFault::TooManyLattices);
    }
    let all = build_all(alloc, blocks)?;
    if let Some(name) = first_shared(&all) {
        return Err(LatticeFileFault::SharedName(Name::new(name.to_vec(alloc)?)));
    }
    Ok(all)
}

/// The lattices of a file, which is read as one of wider C or not, in time and memory linear in it, or the first reason
/// why it does not read: where it is no text of blocks, then that there are over 16 of them, then the first block that
/// makes no lattice, then the first name that an earlier block has. Bytes are a text of one list of blocks at most, so
/// memory aside the answer is one.
pub fn read_lattices(alloc: Global, wide: bool, bytes: &[u8]) -> Result<Lattices, LatticeFileFault>
    requires { length bytes.now < 2 ^ 32 - 1 }
    ensures read { IfOk result (Reads wide bytes.now) }
    ensures refused { IfErr result (IsFileFault wide bytes.now) }
    ensures only { (blocks : _) → IsLatticeText wide blocks bytes.now → IsAnswerFor blocks result }
{
    let blocks = match read_blocks(alloc, wide, bytes) {
        Ok(blocks) => blocks,
        Err(TextFault::NoMemory) => return Err(LatticeFileFault::NoMemory),
        Err(TextFault::At(place)) => {
            let (line, column) = line_and_column(bytes, place);
            return Err(LatticeFileFault::Grammar { line, column });
        }
    };
    lattices_of(alloc, blocks)
}
