//! How far a unit was read, and the next gap or token.

ghost use Rattle.std.specs.Prelude.{ℕ, List, ◌≡◌, ◌≢◌, ◌==◌, ◌+◌, ◌-◌, ◌<◌, ◌≤◌, ◌^◌, [], ◌∷◌};
ghost use Rattle.std.specs.Prelude.{◌++◌, ◌⊎◌, length, take, drop, OnOk, IfOk, IfErr, OnErr};
ghost use Rattle.std.specs.Prelude.{IfSome, IfNone, MatchOption, MatchResult, option_to_list, true};
ghost use Rattle.std.specs.Prelude.{false, nat_eq, slice_range, if◌then◌else◌};
ghost use Rattle.std.specs.List.{starts_with};
ghost use Rattle.c_lexer.specs.Gaps.{IsGap, HasNoGap, fresh_behind};
ghost use Rattle.c_lexer.specs.Shapes.{HasShape};
ghost use Rattle.c_lexer.specs.Spelling.{is_token, is_word, is_dollar, begins_comment, begins_with};
ghost use Rattle.c_lexer.specs.Spelling.{IsLongestOf};
ghost use Rattle.c_lexer.specs.Names.{name_number, with_name};
ghost use Rattle.c_lexer.specs.Reading.{begin, is_index, IsKind, names_behind, MarksBehind, Skips};
ghost use Rattle.c_lexer.specs.Reading.{Takes, IsStep, HasNoKind, Reaches, StopsAt, StopsBehind};
ghost use Rattle.c_lexer.specs.Reading.{IsCounted, opens};
ghost use Rattle.qual_base.specs.Words.{meaning_of};
ghost use Rattle.std.specs.List.Sorted.{IsNonDecreasingBy};
ghost use Rattle.c_lexer.specs.Places.{spot_at};

use crate::gaps::{Gap, gap_in_front, is_fresh_behind};
use crate::kinds::Word;
use crate::longest::{Shape, longest_token};
use crate::marks::marker_of;
use crate::names::Names;
use crate::places::Mark;
use crate::text::Text;
use crate::token::Token;
use crate::words::kind_of_word;
use c_words::TokenKind;
use qual_base::{NoMemory as OutOfMemory, Numbered, QualWords, Spot, UnitNo};
use std::alloc::Global;
use std::marker::Model;

/// Why reading stops.
#[derive(Clone, Copy)]
pub(crate) enum Stop {
    BadByte,
    Unended,
    UnknownQualifier,
    NoMemory,
}

fn word_token(wide: bool, spelling: &[u8], names: &mut Names) -> Result<TokenKind, OutOfMemory>
    requires room { length names.old < 2 ^ 32 }
    requires word { is_word spelling.now ≡ true }
    ensures kind { IfOk result
        (λ kind. (unit : ℕ) (words : _) → IsKind unit wide words names.old spelling.now kind) }
    ensures names { IfOk result (λ kind. names.new ≡ names_behind names.old spelling.now kind) }
{
    match kind_of_word(wide, spelling) {
        Some(Word::Keyword(keyword)) => Ok(TokenKind::Keyword(keyword)),
        Some(Word::Text) => Ok(TokenKind::Text),
        None => Ok(TokenKind::Name(names.number_of(spelling)?)),
    }
}

/// The kind of a `$` word, where it has one.
fn dollar_token(unit: UnitNo, words: &QualWords, spelling: &[u8]) -> Option<TokenKind>
    requires { is_dollar spelling.now ≡ true }
    ensures kind { IfSome result
        (λ kind. (wide : _) (names : _) → IsKind unit wide words.now names spelling.now kind) }
    ensures names { IfSome result
        (λ kind. (names : _) → names_behind names spelling.now kind ≡ names) }
    ensures unknown { IfNone result
        ((is_index unit spelling.now ≡ false) × (meaning_of words.now spelling.now ≡ None)) }
{
    if unit.number() == 0 && spelling.starts_with(b"$_") {
        return Some(TokenKind::Index);
    }
    match words.find(spelling) {
        Some((lattice, elem)) => Some(TokenKind::Qual(lattice, elem)),
        None => None,
    }
}

/// What a skipped line says, where it is a linemarker.
fn line_mark(bytes: &[u8], at: usize, n: usize) -> Option<Mark>
    requires inside { at + n ≤ length bytes.now }
    requires small { length bytes.now < 2 ^ 32 - 1 }
    requires hash { begins_with (λ c. c == 35) (slice_range bytes.now at (at + n)) ≡ true }
    ensures { (marks : _) →
        MarksBehind bytes.now Gap.SkippedLine at n marks (marks ++ option_to_list result) }
{
    match marker_of(&bytes[at..at + n]) {
        Some(marker) => Some(Mark {
            from: (at + n + 1) as u32,
            number: marker.number,
            name_from: (at + marker.name_from) as u32,
            name_to: (at + marker.name_to) as u32,
        }),
        None => None,
    }
}

/// What a linemarker in a gap says, where the gap is one.
fn mark_in(bytes: &[u8], gap: Gap, at: usize, n: usize) -> Option<Mark>
    requires inside { at + n ≤ length bytes.now }
    requires small { length bytes.now < 2 ^ 32 - 1 }
    requires stands { (fresh : _) × IsGap gap fresh (drop at bytes.now) n }
    ensures { (marks : _) → MarksBehind bytes.now gap at n marks (marks ++ option_to_list result) }
{
    match gap {
        Gap::SkippedLine => line_mark(bytes, at, n),
        Gap::Blank | Gap::LineFeed | Gap::OtherSpace | Gap::BlockComment | Gap::LineComment => None,
    }
}

/// Puts a mark behind the others, where there is one.
fn push_mark(marks: &mut Vec<Mark>, mark: Option<Mark>) -> Result<(), OutOfMemory>
    ensures { OnOk result (marks.new.items ≡ marks.old.items ++ option_to_list mark) }
{
    if let Some(mark) = mark {
        marks.push(mark)?;
    }
    Ok(())
}

pub(crate) fn push_token(
    tokens: &mut Vec<Token>,
    kind: TokenKind,
    start: u32,
    end: u32,
) -> Result<(), OutOfMemory>
    ensures { OnOk result (tokens.new.items
        ≡ tokens.old.items ++ record { kind = kind; start = start; end = end } ∷ []) }
{
    if tokens.push(Token { kind, start, end }).is_err() {
        return Err(OutOfMemory);
    }
    Ok(())
}

/// The kind of a token of that shape.
fn token_kind(
    unit: UnitNo,
    wide: bool,
    words: &QualWords,
    names: &mut Names,
    shape: Shape,
    spelling: &[u8],
) -> Result<TokenKind, Stop>
    requires room { length names.old < 2 ^ 32 }
    requires shape { HasShape shape spelling.now }
    ensures kind { IfOk result (λ kind. IsKind unit wide words.now names.old spelling.now kind) }
    ensures names { IfOk result (λ kind. names.new ≡ names_behind names.old spelling.now kind) }
    ensures none { IfErr result
        (λ stop. HasNoKind unit words.now spelling.now names.old names.new stop) }
{
    match shape {
        Shape::Word => word_token(wide, spelling, names).map_err(|_| Stop::NoMemory),
        Shape::Number => Ok(TokenKind::Number),
        Shape::Char => Ok(TokenKind::Char),
        Shape::Text => Ok(TokenKind::Text),
        Shape::Dollar => dollar_token(unit, words, spelling).ok_or(Stop::UnknownQualifier),
        Shape::Sign(sign) => Ok(TokenKind::Punct(sign)),
    }
}

/// Why no token begins where no gap does.
fn why_stuck(bytes: &[u8]) -> Stop
    ensures { result ≡ (if opens bytes.now then Stop.Unended else Stop.BadByte) }
{
    if bytes.starts_with(b"'") || bytes.starts_with(b"\"") || bytes.starts_with(b"/*") {
        Stop::Unended
    } else {
        Stop::BadByte
    }
}

/// How far a unit was read. Clauses see it as a `Front` of the specification.
#[derive(Drop)]
pub(crate) struct Front {
    at: usize,
    fresh: bool,
    tokens: Vec<Token>,
    names: Names,
    marks: Vec<Mark>,
}

impl Model for Front {
    ghost Value = { Rattle.c_lexer.specs.Reading.Front };

    ghost view = { λ a. record {
      at = a.at;
      fresh = a.fresh;
      tokens = a.tokens.items;
      names = a.names;
      marks = a.marks.items;
    } };
}

impl Front {
    /// The start of a unit. It takes no memory.
    pub(crate) fn new(alloc: Global) -> Self
        ensures { result ≡ begin }
    {
        Front {
            at: 0,
            fresh: true,
            tokens: Vec::new(alloc),
            names: Names::new(alloc),
            marks: Vec::new(alloc),
        }
    }

    pub(crate) fn at(&self) -> usize
        ensures { result ≡ self.now.at }
    {
        self.at
    }

    /// How a report names the place.
    pub(crate) fn spot_in(&self, text: &Text) -> Spot
        requires inside { self.now.at ≤ length text.now.1 }
        requires small { length text.now.1 < 2 ^ 32 - 1 }
        requires rising { IsNonDecreasingBy (λ m. m.from) self.now.marks }
        ensures { result ≡ spot_at text.now.0 text.now.1 self.now.marks self.now.at }
    {
        text.spot_of(&self.marks, self.at as u32)
    }

    pub(crate) fn into_parts(self) -> (Vec<Token>, Vec<Mark>)
        ensures tokens { result.0.items ≡ self.tokens }
        ensures marks { result.1.items ≡ self.marks }
    {
        (self.tokens, self.marks)
    }

    fn skip(&mut self, bytes: &[u8], gap: Gap, n: usize) -> Result<(), OutOfMemory>
        requires inside { self.old.at + n ≤ length bytes.now }
        requires small { length bytes.now < 2 ^ 32 - 1 }
        requires stands { IsGap gap self.old.fresh (drop self.old.at bytes.now) n }
        ensures { OnOk result (Skips bytes.now self.old self.new) }
    {
        let mark = mark_in(bytes, gap, self.at, n);
        push_mark(&mut self.marks, mark)?;
        self.at += n;
        self.fresh = is_fresh_behind(gap, self.fresh);
        Ok(())
    }

    fn take(
        &mut self,
        unit: UnitNo,
        wide: bool,
        words: &QualWords,
        bytes: &[u8],
        shape: Shape,
        n: usize,
    ) -> Result<(), Stop>
        requires small { length bytes.now < 2 ^ 32 - 1 }
        requires before { self.old.at < length bytes.now }
        requires counted { IsCounted self.old }
        requires no_gap { HasNoGap self.old.fresh (drop self.old.at bytes.now) }
        requires no_comment { begins_comment (drop self.old.at bytes.now) ≡ false }
        requires longest { IsLongestOf is_token (drop self.old.at bytes.now) n }
        requires shape { HasShape shape (take n (drop self.old.at bytes.now)) }
        ensures takes { OnOk result (Takes unit wide words.now bytes.now self.old self.new) }
        ensures stops { IfErr result
            (λ stop. StopsAt unit wide words.now bytes.now self.old self.new stop) }
    {
        let start = self.at;
        let end = start + n;
        let kind = token_kind(
            unit,
            wide,
            words,
            &mut self.names,
            shape,
            &bytes[start..end],
        )?;
        let Ok(()) = push_token(&mut self.tokens, kind, start as u32, end as u32) else {
            return Err(Stop::NoMemory);
        };
        self.at = end;
        self.fresh = false;
        Ok(())
    }

    /// Reads the next gap or token.
    pub(crate) fn step(
        &mut self,
        unit: UnitNo,
        wide: bool,
        words: &QualWords,
        bytes: &[u8],
    ) -> Result<(), Stop>
        requires small { length bytes.now < 2 ^ 32 - 1 }
        requires before { self.old.at < length bytes.now }
        requires counted { IsCounted self.old }
        ensures steps { OnOk result (IsStep unit wide words.now bytes.now self.old self.new) }
        ensures stops { IfErr result
            (λ stop. StopsAt unit wide words.now bytes.now self.old self.new stop) }
    {
        let rest = &bytes[self.at..];
        if let Some((gap, n)) = gap_in_front(self.fresh, rest) {
            return self.skip(bytes, gap, n).map_err(|_| Stop::NoMemory);
        }
        if rest.starts_with(b"/*") {
            return Err(Stop::Unended);
        }
        match longest_token(rest) {
            Some((shape, n)) => self.take(unit, wide, words, bytes, shape, n),
            None => Err(why_stuck(rest)),
        }
    }
}

/// Reads a unit to its end, in time linear in its bytes beside the look-ups of names.
pub(crate) fn read_all(
    front: &mut Front,
    unit: UnitNo,
    wide: bool,
    words: &QualWords,
    bytes: &[u8],
) -> Result<(), Stop>
    requires small { length bytes.now < 2 ^ 32 - 1 }
    requires begins { Reaches unit wide words.now bytes.now front.old }
    ensures whole { OnOk result (front.new.at ≡ length bytes.now) }
    ensures reached { OnOk result (Reaches unit wide words.now bytes.now front.new) }
    ensures stops { IfErr result (λ stop. StopsBehind unit wide words.now bytes.now front.new stop) }
{
    'steps: while front.at() < bytes.len() {
        front.step(unit, wide, words, bytes)?;
    }
    Ok(())
}
