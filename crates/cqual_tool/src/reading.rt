//! Taking the files in order, and what is answered of their bytes.

ghost use Rattle.std.specs.Prelude.{◌≡◌, ◌≤◌, ◌+◌, ◌-◌, ◌∷◌, [], ℕ, List, Some, IfOk, drop, length};
ghost use Rattle.outside.specs.Readings.{stands};
ghost use Rattle.qual_base.specs.Words.{MeansTheSame};
ghost use Rattle.lattice_core.specs.Names.{words_of};
ghost use Rattle.c_types.specs.Sources.{UnitRead, unit_of};
ghost use Rattle.c_types.specs.Units.{AreReduced};
ghost use Rattle.cqual_tool.specs.Answering.{FilesAnswered, SourcesAnswered, UnitsAnswered};
ghost use Rattle.cqual_tool.specs.Words.{names_in as files_in};
ghost use Rattle.cqual_tool.specs.Outcome.{IsDecided};
ghost use Rattle.cqual_tool.specs.Preparing.{IsEarlier};

use crate::answer::Answer;
use crate::ending::end;
use crate::faults::lattice_refused;
use crate::preludes::prelude_refused;
use crate::preparing::{Earlier, Joined, Prepared, judged, nothing_before, read_source};
use crate::taking::{Failure, LATTICE_LIMIT, SOURCE_LIMIT, TOTAL_LIMIT, taken, too_large};
use crate::words::Named;
use c_types::Units;
use cq_prelude::{PreludeRead, read_prelude};
use lattice_core::Lattices;
use lattice_file::read_lattices;
use outside::Files;
use qual_base::{NoMemory, Numbered, QualWords, UnitNo};
use std::alloc::Global;

/// A prelude stands before the sources. Its tree is let go.
fn prelude_before<'a>(alloc: Global, read: PreludeRead<'a>) -> Result<Earlier<'a>, NoMemory>
    ensures units { IfOk result
        (λ it. AreReduced (unit_of read.entry.source ∷ []) it.units) }
    ensures prelude { IfOk result (λ it. it.prelude ≡ read.entry.prelude) }
{
    let PreludeRead { source, prelude } = read;
    let mut units = Units::new(alloc);
    units.push_source(alloc, source)?;
    Ok(Earlier { units, prelude })
}

/// What is asked of the program of units that were taken.
fn finish<F: Files>(
    alloc: Global,
    named: &Named<'_>,
    lattices: &Lattices,
    earlier: Earlier<'_>,
    files: &mut F,
) -> Result<Answer, Failure>
    requires before { (number : ℕ) × (units : List UnitRead) × IsEarlier number units earlier }
    ensures reads { (number left : ℕ) (units : List UnitRead) →
        IsEarlier number units earlier.entry → SourcesAnswered
        (stands (F.log files.old) (F.failed files.old) (F.contents files.old))
        (stands (F.log files.new) (F.failed files.new) (F.contents files.new)) (files_in named.now)
        lattices.now units earlier.entry.prelude number left [] result }
    ensures decided { IfOk result (λ answer. IsDecided answer.status) }
{
    match judged(alloc, named, lattices, earlier)? {
        Prepared::Refused(answer) => Ok(answer),
        Prepared::Program(ready) => end(alloc, named, lattices, &ready, files),
    }
}

/// Takes the sources from the one of an index on, each whole before the next is started, where so many bytes are left for them, and
/// what is asked of the program. It calls itself once for each source.
fn take_sources<F: Files>(
    alloc: Global,
    named: &Named<'_>,
    lattices: &Lattices,
    words: &QualWords,
    index: u32,
    left: usize,
    earlier: Earlier<'_>,
    files: &mut F,
) -> Result<Answer, Failure>
    requires words { MeansTheSame words.now (words_of lattices.now) }
    requires few { length (files_in named.now).sources ≤ 256 }
    requires within { index ≤ length (files_in named.now).sources }
    requires before { (before : List UnitRead) × IsEarlier (index + 1) before earlier }
    ensures reads { (before : List UnitRead) → IsEarlier (index + 1) before earlier.entry →
        SourcesAnswered
        (stands (F.log files.old) (F.failed files.old) (F.contents files.old))
        (stands (F.log files.new) (F.failed files.new) (F.contents files.new)) (files_in named.now)
        lattices.now before earlier.entry.prelude (index + 1) left
        (drop index (files_in named.now).sources) result }
    ensures decided { IfOk result (λ answer. IsDecided answer.status) }
{
    match named.source(index) {
        None => finish(alloc, named, lattices, earlier, files),
        Some(file) => match taken(alloc, files, file, left.min(SOURCE_LIMIT))? {
            Some(bytes) => {
                let unit = UnitNo::new(index + 1);
                match read_source(alloc, file, named.wide, words, unit, earlier, &bytes)? {
                    Joined::Refused(answer) => Ok(answer),
                    Joined::Units(earlier) => take_sources(
                        alloc,
                        named,
                        lattices,
                        words,
                        index + 1,
                        left - bytes.len(),
                        earlier,
                        files,
                    ),
                }
            }
            None => Ok(too_large(alloc, file)?),
        },
    }
}

/// Takes a prelude, and then the sources.
fn take_prelude<F: Files>(
    alloc: Global,
    named: &Named<'_>,
    lattices: &Lattices,
    words: &QualWords,
    file: &str,
    files: &mut F,
) -> Result<Answer, Failure>
    requires words { MeansTheSame words.now (words_of lattices.now) }
    requires named { (files_in named.now).prelude ≡ Some file.now }
    requires some { 1 ≤ length (files_in named.now).sources }
    requires few { length (files_in named.now).sources ≤ 256 }
    ensures reads { UnitsAnswered
        (stands (F.log files.old) (F.failed files.old) (F.contents files.old))
        (stands (F.log files.new) (F.failed files.new) (F.contents files.new))
        (files_in named.now) lattices.now result }
    ensures decided { IfOk result (λ answer. IsDecided answer.status) }
{
    match taken(alloc, files, file, SOURCE_LIMIT)? {
        Some(bytes) => match read_prelude(alloc, named.wide, &bytes, words) {
            Ok(read) => {
                let earlier = prelude_before(alloc, read)?;
                take_sources(
                    alloc,
                    named,
                    lattices,
                    words,
                    0,
                    TOTAL_LIMIT,
                    earlier,
                    files,
                )
            }
            Err(fault) => Ok(prelude_refused(alloc, file, &bytes, &fault)?),
        },
        None => Ok(too_large(alloc, file)?),
    }
}

/// Takes the prelude where one is named, and then the sources.
fn take_units<F: Files>(
    alloc: Global,
    named: &Named<'_>,
    lattices: &Lattices,
    files: &mut F,
) -> Result<Answer, Failure>
    requires some { 1 ≤ length (files_in named.now).sources }
    requires few { length (files_in named.now).sources ≤ 256 }
    ensures reads { UnitsAnswered
        (stands (F.log files.old) (F.failed files.old) (F.contents files.old))
        (stands (F.log files.new) (F.failed files.new) (F.contents files.new))
        (files_in named.now) lattices.now result }
    ensures decided { IfOk result (λ answer. IsDecided answer.status) }
{
    let words = lattices.words(alloc)?;
    match named.prelude {
        Some(file) => take_prelude(alloc, named, lattices, &words, file, files),
        None => take_sources(
            alloc,
            named,
            lattices,
            &words,
            0,
            TOTAL_LIMIT,
            nothing_before(alloc),
            files,
        ),
    }
}

/// The answer for files that are named, in the order in which they are read.
pub fn answer<F: Files>(alloc: Global, named: &Named<'_>, files: &mut F) -> Result<Answer, Failure>
    requires some { 1 ≤ length (files_in named.now).sources }
    requires few { length (files_in named.now).sources ≤ 256 }
    ensures reads { FilesAnswered
        (stands (F.log files.old) (F.failed files.old) (F.contents files.old))
        (stands (F.log files.new) (F.failed files.new) (F.contents files.new))
        (files_in named.now) result }
    ensures decided { IfOk result (λ answer. IsDecided answer.status) }
{
    match taken(alloc, files, named.lattice, LATTICE_LIMIT)? {
        Some(bytes) => match read_lattices(alloc, named.wide, &bytes) {
            Ok(lattices) => take_units(alloc, named, &lattices, files),
            Err(fault) => Ok(lattice_refused(alloc, named.lattice, &fault)?),
        },
        None => Ok(too_large(alloc, named.lattice)?),
    }
}
