//! From the bytes of sources to a program with its constraints.

ghost use Rattle.std.specs.Prelude.{◌≡◌, ◌≢◌, ◌≤◌, [], ℕ, Bool, List, IfOk, length};
ghost use Rattle.lattice_core.specs.View.{LatticeView};
ghost use Rattle.qual_base.specs.Words.{MeansTheSame};
ghost use Rattle.lattice_core.specs.Names.{words_of};
ghost use Rattle.unit_types.specs.declared.fault.ShapeFault.TheVariants as Stops;
ghost use Rattle.c_types.specs.Sources.{UnitRead};
ghost use Rattle.c_types.specs.Units.{AreReduced, IsTaped};
ghost use Rattle.constraint_gen.specs.Generating.{IsProgramOf};
ghost use Rattle.annotate.specs.Scenes as scenes;
ghost use Rattle.cqual_tool.specs.declared.status.Status.TheVariants as Statuses;
ghost use Rattle.cqual_tool.specs.Statuses.{Says};
ghost use Rattle.cqual_tool.specs.Words.{names_in as files_in};
ghost use Rattle.cqual_tool.specs.Programs.{file_of, last_of, texts_of};
ghost use Rattle.cqual_tool.specs.Shapes.{shape_line};
ghost use Rattle.type_rules.specs.Program.{HasNoFault};
ghost use Rattle.c_types.specs.Sources.{sources_in};
ghost use Rattle.cqual_tool.specs.Outcome.{SourceLexes, SourceParses, source_limit};
ghost use Rattle.cqual_tool.specs.Preparing.{AreJoined, IsEarlier, IsOneMore, IsPrepared};

use crate::answer::{Answer, malformed};
use crate::faults::source_refused;
use crate::shapes::names_refused;
use crate::syntax::unit_refused;
use crate::words::Named;
use annotate::UnitText;
use c_lexer::{Tokens, lex};
use c_parser::parse_tape;
use c_types::{Program as Resolved, ShapeFault, UnitTape, Units, resolve_tapes};
use constraint_gen::{GenerateFault, Generated, generate};
use index_words::Prelude;
use lattice_core::Lattices;
use name_tables::name_scopes::Place;
use qual_base::{NoMemory, Numbered, QualWords, UnitNo};
use sig_writer::{external_functions, externals_are_held, owned_apart, skeletons_are_in_order};
use std::alloc::Global;
use tape_ops::Op;

/// The units before a source, and what their index words say.
#[derive(Drop)]
pub struct Earlier<'a> {
    pub units: Units<'a>,
    pub prelude: Prelude,
}

/// No unit stands before the source. Takes no memory.
pub fn nothing_before<'a>(alloc: Global) -> Earlier<'a>
    ensures units { AreReduced [] result.units }
    ensures prelude { result.prelude ≡ [] }
{
    Earlier {
        units: Units::new(alloc),
        prelude: Prelude::new(alloc),
    }
}

/// A program: the tokens of its units in their order, its constraints, and its external functions.
#[derive(Drop)]
pub struct Ready<'a> {
    pub tokens: Vec<Tokens<'a>>,
    pub made: Generated,
    /// Where its external functions were first declared.
    pub functions: Vec<Place>,
}

/// What is made of a source: an answer that refuses it, or a program.
#[derive(Drop)]
pub enum Prepared<'a> {
    Refused(Answer),
    Program(Ready<'a>),
}

/// The name of the file of a unit: of the prelude, or of the source of that number, counted from 1.
fn file_name<'a>(named: &Named<'a>, unit: UnitNo) -> &'a str
    ensures { result.now ≡ file_of (files_in named.now) unit }
{
    match (unit.number() as usize).checked_sub(1) {
        None => match named.prelude {
            Some(name) => name,
            None => "",
        },
        Some(index) => match named.sources.get(index) {
            Some(name) => *name,
            None => "",
        },
    }
}

/// The name of the last source.
fn last_file<'a>(named: &Named<'a>) -> &'a str
    ensures { result.now ≡ last_of (files_in named.now).sources }
{
    match named.sources.last() {
        Some(name) => *name,
        None => "",
    }
}

/// The units, as reports name them.
pub fn texts<'a>(
    alloc: Global,
    named: &Named<'a>,
    tokens: &'a [Tokens<'a>],
) -> Result<Vec<UnitText<'a>>, NoMemory>
    ensures { IfOk result
        (λ units. scenes.units_of units.items ≡ texts_of (files_in named.now) tokens.now) }
{
    let mut units = Vec::new(alloc);
    for it in tokens {
        units.push(UnitText {
            file: file_name(named, it.unit()),
            tokens: it,
        })?;
    }
    Ok(units)
}

/// The answer for units of which one has a fault of names or types.
fn faulty(
    alloc: Global,
    named: &Named<'_>,
    tokens: &[Tokens<'_>],
    fault: ShapeFault,
) -> Result<Answer, NoMemory>
    ensures line { IfOk result (Says Statuses.Malformed
        (shape_line (last_of (files_in named.now).sources)
        (texts_of (files_in named.now) tokens.now) fault)) }
    ensures reason { IfOk result (λ _. fault ≢ Stops.NoMemory) }
{
    let units = texts(alloc, named, tokens)?;
    names_refused(alloc, last_file(named), &units, fault)
}

/// A program from units whose names and types have no fault: its variables are counted, then its constraints.
fn constrain<'a>(
    alloc: Global,
    named: &Named<'_>,
    lattices: &Lattices,
    tokens: Vec<Tokens<'a>>,
    prelude: &Prelude,
    program: &Resolved,
) -> Result<Prepared<'a>, NoMemory>
    ensures { (units : List UnitRead) → IsProgramOf units tokens.entry.items program.now →
        HasNoFault (sources_in units) → IfOk result
        (IsPrepared (files_in named.now) lattices.now prelude.now units) }
{
    skeletons_are_in_order();
    owned_apart();
    externals_are_held();
    match generate(alloc, &tokens, program, prelude, lattices) {
        Ok(made) => {
            let functions = external_functions(alloc, program)?;
            Ok(Prepared::Program(Ready {
                tokens,
                made,
                functions,
            }))
        }
        Err(GenerateFault::TooManyVariables) => {
            Ok(Prepared::Refused(malformed(alloc, last_file(named), b"Q1")?))
        }
        Err(GenerateFault::TooManyConstraints) => {
            Ok(Prepared::Refused(malformed(alloc, last_file(named), b"G1")?))
        }
        Err(GenerateFault::NoMemory) => Err(NoMemory),
    }
}

/// A program from well-formed units.
fn resolved<'a>(
    alloc: Global,
    named: &Named<'_>,
    lattices: &Lattices,
    tokens: Vec<Tokens<'a>>,
    tapes: Vec<UnitTape>,
    prelude: &Prelude,
) -> Result<Prepared<'a>, NoMemory>
    ensures { (units : List UnitRead) → AreJoined units tokens.entry.items tapes.items →
        IfOk result (IsPrepared (files_in named.now) lattices.now prelude.now units) }
{
    match resolve_tapes(alloc, tapes) {
        Ok(program) => constrain(alloc, named, lattices, tokens, prelude, &program),
        Err(fault) => Ok(Prepared::Refused(faulty(alloc, named, &tokens, fault)?)),
    }
}

/// A program of well-formed units.
pub fn judged<'a>(
    alloc: Global,
    named: &Named<'_>,
    lattices: &Lattices,
    earlier: Earlier<'a>,
) -> Result<Prepared<'a>, NoMemory>
    ensures { (number : ℕ) (units : List UnitRead) → IsEarlier number units earlier.entry →
        IfOk result
        (IsPrepared (files_in named.now) lattices.now earlier.entry.prelude units) }
{
    let Earlier { units, prelude } = earlier;
    let (tokens, tapes) = units.into_parts();
    resolved(alloc, named, lattices, tokens, tapes, &prelude)
}

/// What is made of the bytes of a source behind earlier units: an answer that refuses it, or these units with it behind them.
#[derive(Drop)]
pub enum Joined<'a> {
    Refused(Answer),
    Units(Earlier<'a>),
}

/// A source behind earlier units, by its tokens and its tape.
fn added<'a>(
    alloc: Global,
    earlier: Earlier<'a>,
    tokens: Tokens<'a>,
    ops: Vec<Op>,
) -> Result<Joined<'a>, NoMemory>
    ensures { (wide : Bool) (lattices : List LatticeView) (number : ℕ) (file bytes : List ℕ)
        (before : List UnitRead) (unit : UnitRead) →
        IsEarlier number before earlier.entry → IsTaped unit tokens.entry ops.items →
        SourceParses wide lattices number bytes unit → IfOk result
        (IsOneMore wide lattices number file bytes before earlier.entry.prelude) }
{
    let Earlier { mut units, prelude } = earlier;
    units.push(alloc, tokens, ops)?;
    Ok(Joined::Units(Earlier { units, prelude }))
}

/// A source behind earlier units, by its tokens.
fn parsed<'a>(
    alloc: Global,
    file: &str,
    earlier: Earlier<'a>,
    tokens: Tokens<'a>,
) -> Result<Joined<'a>, NoMemory>
    ensures { (wide : Bool) (lattices : List LatticeView) (number : ℕ) (bytes : List ℕ)
        (before : List UnitRead) → IsEarlier number before earlier.entry →
        SourceLexes wide lattices number bytes tokens.entry → IfOk result
        (IsOneMore wide lattices number file.now bytes before earlier.entry.prelude) }
{
    match parse_tape(alloc, &tokens) {
        Ok(ops) => added(alloc, earlier, tokens, ops),
        Err(fault) => Ok(Joined::Refused(unit_refused(alloc, file, &tokens, fault)?)),
    }
}

/// What is made of the bytes of a source, the unit of this number, behind earlier units, where the words mean what the names of the
/// lattices do.
pub fn read_source<'a>(
    alloc: Global,
    file: &str,
    wide: bool,
    words: &QualWords,
    unit: UnitNo,
    earlier: Earlier<'a>,
    bytes: &'a [u8],
) -> Result<Joined<'a>, NoMemory>
    requires within { length bytes.now ≤ source_limit }
    ensures { (lattices : List LatticeView) (before : List UnitRead) →
        MeansTheSame words.now (words_of lattices) → IsEarlier unit before earlier.entry →
        IfOk result
        (IsOneMore wide lattices unit file.now bytes.now before earlier.entry.prelude) }
{
    match lex(alloc, unit, wide, bytes, words) {
        Ok(tokens) => parsed(alloc, file, earlier, tokens),
        Err(fault) => Ok(Joined::Refused(source_refused(alloc, file, bytes, &fault)?)),
    }
}
