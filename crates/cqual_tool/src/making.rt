//! The source that the tool makes itself, and the sum of what is found in it.

ghost use Rattle.std.specs.Prelude.{false, ◌≡◌, ◌≤◌, ℕ, [], ◌∷◌, List, IfOk, length};
ghost use Rattle.c_types.specs.Sources.{UnitRead};
ghost use Rattle.flow_graph.specs.System.{IsWellOwned};
ghost use Rattle.annotate.specs.Scenes.{Shows};
ghost use Rattle.annotate.specs.Solutions.{AllNamed};
ghost use Rattle.generated_source.specs.Source.{generated_text, lattice_text};
ghost use Rattle.cqual_words.specs.Words.{IsMade};
ghost use Rattle.cqual_tool.specs.Words.{names_in as files_in};
ghost use Rattle.cqual_tool.specs.Programs.{Judging, judging_of};
ghost use Rattle.cqual_tool.specs.Outcome as rules;
ghost use Rattle.cqual_tool.specs.Outcome.{IsDecided, IsSummed, LatticesRead, OfMade, OfSources};
ghost use Rattle.cqual_tool.specs.Outcome.{SourceParses, limit_in, total_limit};
ghost use Rattle.cqual_tool.specs.Preparing.{IsEarlier, IsReady};
ghost use Rattle.cqual_tool.specs.Inputs.{files_with};

use crate::answer::Answer;
use crate::faults::lattice_refused;
use crate::preparing::{
    Earlier, Joined, Prepared, Ready, judged, nothing_before, read_source, texts,
};
use crate::status::Status;
use crate::taking::{SOURCE_LIMIT, too_large};
use crate::words::Named;
use annotate::{Scene, count_errors};
use cqual_words::Question;
use flow_graph::FlowGraph;
use generated_source::{Counts, generated_source, lattice_bytes, put_summary};
use lattice_core::Lattices;
use lattice_file::read_lattices;
use qual_base::{NoMemory, Numbered, UnitNo};
use std::alloc::Global;

/// The names of the lattice file and of the source.
const LATTICE: &str = "generated.q";

const SOURCE: &str = "generated.c";

const SOURCES: &[&str] = &[SOURCE];

/// The names of what the tool makes itself.
fn made_names() -> Named<'static>
    ensures { files_in result ≡ rules.made_names }
{
    Named {
        lattice: LATTICE,
        prelude: None,
        asked: Question::Infer,
        sources: SOURCES,
        wide: false,
    }
}

/// The status for a number of exceeded bounds.
fn status_for(errors: u32) -> Status
    ensures { result ≡ rules.sum_status errors }
{
    match errors {
        0 => Status::Accepted,
        _ => Status::Rejected,
    }
}

/// The sum of constraints. Each lattice is solved once.
fn summed(
    alloc: Global,
    number: u32,
    scene: &Scene<'_>,
    graph: &FlowGraph,
) -> Result<Answer, NoMemory>
    requires named { AllNamed scene.now.lattices.now graph.now }
    requires owned { IsWellOwned graph.now }
    ensures sum { IfOk result (λ answer. (it : Judging) → Shows scene.now it.scene →
        it.system ≡ graph.now → IsSummed number it answer.status answer.text.items) }
    ensures decided { IfOk result (λ answer. IsDecided answer.status) }
{
    let errors = count_errors(alloc, scene, graph)?;
    let counts = Counts {
        variables: scene.vars.count(),
        constraints: graph.len(),
        sites: graph.sites(),
        errors,
    };
    let mut text = Vec::new(alloc);
    put_summary(&mut text, number, &counts)?;
    Ok(Answer {
        status: status_for(errors),
        text,
    })
}

/// The sum of a program that was made of the source of a number.
fn of_program(
    alloc: Global,
    number: u32,
    lattices: &Lattices,
    ready: &Ready<'_>,
) -> Result<Answer, NoMemory>
    requires named { AllNamed lattices.now ready.now.made.graph }
    requires owned { IsWellOwned ready.now.made.graph }
    ensures sum { (units : List UnitRead) →
        IsReady rules.made_names lattices.now [] units ready.now → IfOk result
        (λ answer. IsSummed number (judging_of rules.made_names lattices.now [] units)
        answer.status answer.text.items) }
    ensures decided { IfOk result (λ answer. IsDecided answer.status) }
{
    let named = made_names();
    let units = texts(alloc, &named, &ready.tokens)?;
    let scene = Scene {
        units: &units,
        lattices,
        vars: ready.made.skeletons.vars(),
        listed: &ready.made.listed,
    };
    summed(alloc, number, &scene, &ready.made.graph)
}

/// The answer for the source of a number, a well-formed unit.
fn of_units(
    alloc: Global,
    number: u32,
    lattices: &Lattices,
    earlier: Earlier<'_>,
) -> Result<Answer, NoMemory>
    requires before { (count : ℕ) × (units : List UnitRead) × IsEarlier count units earlier }
    ensures outcome { (count : ℕ) (unit : UnitRead) → IsEarlier count (unit ∷ []) earlier.entry →
        earlier.entry.prelude ≡ [] → (bytes : List ℕ) → length bytes ≤ limit_in total_limit →
        SourceParses false lattices.now 1 bytes unit → IfOk result
        (λ answer. OfSources rules.made_names lattices.now [] [] (IsSummed number) 1 total_limit
        (files_with rules.made_names.sources (bytes ∷ [])) answer.status answer.text.items) }
    ensures decided { IfOk result (λ answer. IsDecided answer.status) }
{
    match judged(alloc, &made_names(), lattices, earlier)? {
        Prepared::Refused(answer) => Ok(answer),
        Prepared::Program(ready) => of_program(alloc, number, lattices, &ready),
    }
}

/// The answer for the source of a number over its lattices.
fn of_source(
    alloc: Global,
    number: u32,
    lattices: &Lattices,
    bytes: &[u8],
) -> Result<Answer, NoMemory>
    requires { bytes.now ≡ generated_text number }
    ensures outcome { LatticesRead false lattice_text lattices.now → IfOk result
        (λ answer. OfMade number answer.status answer.text.items) }
    ensures decided { IfOk result (λ answer. IsDecided answer.status) }
{
    if bytes.len() > SOURCE_LIMIT {
        return too_large(alloc, SOURCE);
    }
    let words = lattices.words(alloc)?;
    let unit = UnitNo::new(1);
    match read_source(
        alloc,
        SOURCE,
        false,
        &words,
        unit,
        nothing_before(alloc),
        bytes,
    )? {
        Joined::Refused(answer) => Ok(answer),
        Joined::Units(earlier) => of_units(alloc, number, lattices, earlier),
    }
}

/// The answer for the source of a number, which the tool makes itself, over a lattice file of its own. No file is read.
pub fn made_answer(alloc: Global, number: u32) -> Result<Answer, NoMemory>
    requires { IsMade number }
    ensures outcome { IfOk result (λ answer. OfMade number answer.status answer.text.items) }
    ensures decided { IfOk result (λ answer. IsDecided answer.status) }
{
    let source = generated_source(alloc, number)?;
    match read_lattices(alloc, false, lattice_bytes()) {
        Ok(lattices) => of_source(alloc, number, &lattices, &source),
        Err(fault) => lattice_refused(alloc, LATTICE, &fault),
    }
}
