//! Preludes read from their bytes.

ghost use Rattle.std.specs.Prelude.{◌≡◌, List, [], ◌∷◌, ◌-◌, ◌<◌, ◌^◌, length, IfErr, IfOk};
ghost use Rattle.std.specs.Prelude.{OnOk};
ghost use Rattle.c_lexer.specs.Tokens.{Lexed};
ghost use Rattle.c_parser.specs.Parsing.{lexemes_of};
ghost use Rattle.c_tree.specs.Unit.{items_of};
ghost use Rattle.c_types.specs.Sources.{UnitRead, sources_in, unit_of};
ghost use Rattle.c_units.specs.Units.{IsWellFormed};
ghost use Rattle.cq_prelude.specs.Answers.{IsFaultIn, IsOnlyRead, IsOnlyTokens, IsShapeFaultIn, placed_rule};
ghost use Rattle.cq_prelude.specs.Preludes.{IsFaultOf, IsPrelude, Lexes};
ghost use Rattle.cq_prelude.specs.Rules.{AreMarks, NoneFails};
ghost use Rattle.index_words.specs.Marks.{IndexMark};
ghost use Rattle.type_rules.specs.Program.{HasNoFault};

use crate::fault::{PreludeFault, lex_refused, parse_refused, place_in, shape_refused};
use crate::rules::{RuleFault, marks_of};
use c_lexer::{Tokens, lex};
use c_parser::parse;
use c_types::{Source, resolve};
use index_words::Prelude;
use qual_base::{Numbered, QualWords, UnitNo};
use std::alloc::Global;
use std::slice::from_ref;

/// A prelude: a unit with its tokens, and the numbers of its index words.
#[derive(Drop)]
pub struct PreludeRead<'a> {
    pub source: Source<'a>,
    pub prelude: Prelude,
}

/// The answer for a unit that breaks a rule of preludes.
fn rule_broken(tokens: &Tokens, fault: RuleFault) -> PreludeFault
    ensures { result ≡ placed_rule tokens.now fault }
{
    match fault {
        RuleFault::HasBody(token) => PreludeFault::HasBody(place_in(tokens, token)),
        RuleFault::BadIndex(token) => PreludeFault::BadIndex(place_in(tokens, token)),
        RuleFault::NoMemory => PreludeFault::NoMemory,
    }
}

/// Whether the names and types of a unit have no fault by themselves, and else the first.
fn check_names(alloc: Global, source: &Source) -> Result<(), PreludeFault>
    requires { IsWellFormed source.now.tokens.wide (lexemes_of source.now.tokens) (items_of source.now.unit) }
    ensures none { OnOk result (HasNoFault (sources_in (unit_of source.now ∷ []))) }
    ensures fault { IfErr result (IsShapeFaultIn (unit_of source.now)) }
{
    match resolve(alloc, from_ref(source)) {
        Ok(_program) => Ok(()),
        Err(fault) => Err(shape_refused(&source.tokens, fault)),
    }
}

/// The index words of a well-formed unit with their numbers, or why it is no prelude.
fn prelude_of(alloc: Global, source: &Source) -> Result<Prelude, PreludeFault>
    requires { IsWellFormed source.now.tokens.wide (lexemes_of source.now.tokens) (items_of source.now.unit) }
    ensures rules { IfOk result
        (λ _. NoneFails source.now.tokens (items_of source.now.unit)) }
    ensures marks { IfOk result (AreMarks source.now.tokens) }
    ensures shaped { IfOk result (λ _. HasNoFault (sources_in (unit_of source.now ∷ []))) }
    ensures fault { IfErr result (IsFaultIn (unit_of source.now)) }
{
    match marks_of(alloc, &source.unit, &source.tokens) {
        Ok(prelude) => {
            check_names(alloc, source)?;
            Ok(prelude)
        }
        Err(fault) => Err(rule_broken(&source.tokens, fault)),
    }
}

/// The tokens of a unit 0 that bytes spell.
fn tokens_of<'a>(
    alloc: Global,
    wide: bool,
    bytes: &'a [u8],
    words: &QualWords,
) -> Result<Tokens<'a>, PreludeFault>
    requires { length bytes.now < 2 ^ 32 - 1 }
    ensures lexes { IfOk result (λ tokens. Lexes wide words.now bytes.now tokens) }
    ensures refused { IfErr result (IsFaultOf wide words.now bytes.now) }
    ensures only { (lexed : Lexed) → Lexes wide words.now bytes.now lexed → IsOnlyTokens lexed result }
{
    match lex(alloc, UnitNo::new(0), wide, bytes, words) {
        Ok(tokens) => Ok(tokens),
        Err(fault) => Err(lex_refused(fault)),
    }
}

/// The prelude that bytes are, read as wider C or not, or why they are none.
///
/// Time and memory are linear in the bytes, but for looking names up, for the types of the names, and for sorting the
/// numbers of an index word. A fault of tokens comes before one of syntax, that before a body or an index word that is not
/// right, the first of them in the text, and that before a fault of names and types.
pub fn read_prelude<'a>(
    alloc: Global,
    wide: bool,
    bytes: &'a [u8],
    words: &QualWords,
) -> Result<PreludeRead<'a>, PreludeFault>
    requires { length bytes.now < 2 ^ 32 - 1 }
    ensures reads { IfOk result
        (λ it. IsPrelude wide words.now bytes.now (unit_of it.source) it.prelude) }
    ensures refused { IfErr result (IsFaultOf wide words.now bytes.now) }
    ensures only { (it : UnitRead) (marks : List IndexMark) →
        IsPrelude wide words.now bytes.now it marks → IsOnlyRead it result }
{
    let tokens = tokens_of(alloc, wide, bytes, words)?;
    match parse(alloc, &tokens) {
        Ok(unit) => {
            let source = Source { unit, tokens };
            let prelude = prelude_of(alloc, &source)?;
            Ok(PreludeRead { source, prelude })
        }
        Err(fault) => Err(parse_refused(&tokens, fault)),
    }
}
