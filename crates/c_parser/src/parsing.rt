//! Units read from their tokens.

ghost use Rattle.std.specs.Prelude.{◌≡◌, ◌≢◌, ℕ, List, drop, Err, IfOk};
ghost use Rattle.c_tree.specs.Unit.{Item, items_of};
ghost use Rattle.c_units.specs.Units.{IsWellFormed};
ghost use Rattle.c_reading.specs.Knot.{unit_at};
ghost use Rattle.reader_base.specs.Gives.{Fails, Gives};
ghost use Rattle.reader_base.specs.Lent.{ReadsAsked, asked_at};
ghost use Rattle.reader_base.specs.declared.fault.ReadError.{ReadError};
ghost use Rattle.reader_base.specs.declared.fault.ReadError.TheVariants as errors;
ghost use Rattle.c_parser.specs.Parsing.{is_atomic, opens, read_before, lexemes_of};
ghost use Rattle.c_parser.specs.Taping.{IsTapeOf};
ghost use Rattle.c_parser.specs.Whole.{unit_found};
ghost use Rattle.c_parser.specs.Refusing.{IsUnitRefusal};

use crate::knot::read;
use crate::taping::unit_tape;
use crate::unit_forms::items;
use c_lexer::Tokens;
use c_reading::{FaultKind, unit_is_well_formed, well_formed_is_read};
use c_syntax::Unit;
use c_tree::Lexeme;
use c_words::{Keyword, TokenKind};
use depth_laws::only_the_height;
use held_scopes::TypedefScopes;
use qual_base::{NoMemory, Numbered, TokenId};
use reader_base::{Ask, Cursor, ReadError, end, is_open_paren, refused};
use std::alloc::Global;
use tape_ops::Op;
use unit_places::{height_alone, place_is_first, syntax_is_allowed};

/// The number of the readers of a unit, and the greatest height of its tree.
const MOST: u32 = 500;

/// Whether a token of a kind is `_Atomic`.
fn is_atomic(kind: TokenKind) -> bool
    ensures { result ≡ is_atomic kind }
{
    match kind {
        TokenKind::Keyword(Keyword::Atomic) => true,
        _ => false,
    }
}

/// What a token is before `(` or not: `_Atomic` begins the name of a type there.
#[tactic(auto, using(crate::proofs::Numbering::read_is))]
fn read_before(kind: &TokenKind, before: bool) -> TokenKind
    ensures { result ≡ read_before kind.now before }
{
    if before && is_atomic(*kind) {
        TokenKind::Keyword(Keyword::AtomicType)
    } else {
        *kind
    }
}

/// Whether `(` stands at a number.
#[tactic(auto, using(crate::proofs::Numbering::opens_is, crate::proofs::Numbering::opens_none))]
fn opens_at(tokens: &Tokens, number: u32) -> bool
    ensures { result ≡ opens (drop number tokens.now.tokens) }
{
    number < tokens.len() && is_open_paren(tokens.kind(TokenId::new(number)))
}

/// The tokens of a unit with their numbers. Linear in the tokens.
#[tactic(auto, using(crate::proofs::Numbering::lexemes_on))]
fn lexemes(alloc: Global, tokens: &Tokens) -> Result<Vec<Lexeme>, NoMemory>
    ensures { IfOk result (λ all. all.items ≡ lexemes_of tokens.now) }
{
    let mut all = Vec::new(alloc);
    for number in 0..tokens.len() {
        let at = TokenId::new(number);
        let kind = tokens.kind(at);
        let kind = read_before(&kind, opens_at(tokens, number + 1));
        match all.push(Lexeme { kind, at }) {
            Ok(()) => {}
            Err(_) => return Err(NoMemory),
        }
    }
    Ok(all)
}

/// The unit of these tokens, or the token that is refused.
#[tactic(auto, unfolding(c_reading::specs::Knot::unit_at, c_reading::specs::Reading::and_then))]
fn unit(alloc: Global, wide: bool, all: &[Lexeme]) -> Result<Unit, ReadError>
    ensures { Gives (λ x. unit_found wide (items_of x)) result (unit_at wide all.now) }
{
    let scopes = TypedefScopes::new(alloc, wide)?;
    let mut cursor = Cursor {
        alloc,
        rest: all,
        scopes,
    };
    let inner = |ask: Ask, cursor: &mut Cursor|
        ensures { ReadsAsked cursor.old cursor.new result (asked_at 500 ask) }
    { read(ask, cursor, MOST) };
    let found = items(&inner, 499, &mut cursor, MOST)?;
    end(&mut cursor)?;
    if !cursor.rest.is_empty() {
        return Err(refused(FaultKind::Unexpected, cursor.rest));
    }
    Ok(Unit { items: found })
}

/// Why the readers of a unit refused these tokens.
fn refusal(tokens: &Tokens, error: ReadError) -> ReadError
    requires { Fails error (unit_at tokens.now.wide (lexemes_of tokens.now)) }
    ensures { result ≢ errors.NoMemory → IsUnitRefusal tokens.now result }
{
    well_formed_is_read();
    place_is_first();
    height_alone();
    syntax_is_allowed();
    only_the_height();
    tokens.is_ended();
    error
}

/// The one well-formed unit that has these tokens, and else the first token up to which no such unit begins so.
///
/// Time and memory are linear in the tokens. Trees above a height of 500 are refused, so the recursion is bounded. A refusal
/// is a rule and the token that breaks it: the syntax, the height, a name of another kind in its scope (C99, 6.2.1 and
/// 6.2.3), a mix of specifiers (6.7.1 and 6.7.2), the left side of an assignment (6.5.16). That a refusal for the syntax or
/// for the height is allowed is proved; of the other three it is tested.
pub fn parse(alloc: Global, tokens: &Tokens) -> Result<Unit, ReadError>
    ensures unit { IfOk result (λ unit. IsWellFormed tokens.now.wide (lexemes_of tokens.now) (items_of unit)) }
    ensures only { (items : List Item) → IsWellFormed tokens.now.wide (lexemes_of tokens.now) items →
        IfOk result (λ unit. items_of unit ≡ items) }
    ensures refused { (fault : ReadError) → result ≡ Err fault → fault ≢ errors.NoMemory →
        IsUnitRefusal tokens.now fault }
{
    unit_is_well_formed();
    well_formed_is_read();
    let Ok(all) = lexemes(alloc, tokens) else {
        return Err(ReadError::NoMemory);
    };
    match unit(alloc, tokens.is_wide(), all.as_slice()) {
        Ok(found) => Ok(found),
        Err(error) => Err(refusal(tokens, error)),
    }
}

/// The tape of the one well-formed unit that has these tokens, and else what `parse` refuses.
///
/// Time is that of `parse` and of making the tape. Memory is linear in the tokens, but that of trees: one item at a time has its
/// tree, which is let go behind its ops.
pub fn parse_tape(alloc: Global, tokens: &Tokens) -> Result<Vec<Op>, ReadError>
    ensures tape { IfOk result (λ ops. IsTapeOf tokens.now ops.items) }
    ensures refused { (fault : ReadError) → result ≡ Err fault → fault ≢ errors.NoMemory →
        IsUnitRefusal tokens.now fault }
{
    unit_is_well_formed();
    let Ok(all) = lexemes(alloc, tokens) else {
        return Err(ReadError::NoMemory);
    };
    match unit_tape(alloc, tokens.is_wide(), all.as_slice()) {
        Ok(ops) => Ok(ops),
        Err(error) => Err(refusal(tokens, error)),
    }
}
