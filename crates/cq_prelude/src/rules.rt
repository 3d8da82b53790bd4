//! The rules of a prelude: no function has a body, and each index word is right.

ghost use Rattle.std.specs.Prelude.{◌≡◌, ℕ, ◌+◌, ◌<◌, List, IfErr, IfOk, IfSome, None, Ok, Some};
ghost use Rattle.std.specs.Prelude.{length, slice_set, true, false};
ghost use Rattle.c_tree.specs.Unit.{items_of};
ghost use Rattle.cq_prelude.specs.Marking.{AreFlags, AreMarkedTo, IsBad, IsFirstBad, IsRuleFault};
ghost use Rattle.cq_prelude.specs.Marking.{first_fault, is_marked, with_body};
ghost use Rattle.cq_prelude.specs.declared.rules.RuleFault.TheVariants.{HasBody};
ghost use Rattle.cq_prelude.specs.Rules.{AreMarks, IsIndex, NoneFails, Says};

use crate::placing::{first_body, places};
use crate::word::numbers_of;
use c_lexer::Tokens;
use c_syntax::Unit;
use c_words::TokenKind;
use index_words::Prelude;
use qual_base::{NoMemory, Numbered, TokenId};
use std::alloc::Global;

/// Why a unit is no prelude, with the token that says so.
#[derive(Clone, Copy, PartialEq, Eq, Debug)]
pub(crate) enum RuleFault {
    /// The `{` of a function's body.
    HasBody(TokenId),
    /// An index word that is not right.
    BadIndex(TokenId),
    NoMemory,
}

impl From<NoMemory> for RuleFault {
    ghost use Rattle.std.specs.Prelude.{◌≡◌};
    ghost use Rattle.cq_prelude.specs.declared.rules.RuleFault.TheVariants as faults;

    ghost from_gives = { λ _ fault. fault ≡ faults.NoMemory };

    fn from(_: NoMemory) -> RuleFault {
        RuleFault::NoMemory
    }
}

/// So many flags, none of which is set.
fn no_flags(alloc: Global, count: u32) -> Result<Vec<bool>, NoMemory>
    ensures count { IfOk result (λ flags. length flags.items ≡ count) }
    ensures unset { IfOk result (λ flags. (at : ℕ) → is_marked flags.items at ≡ false) }
{
    let flags = vec![in alloc; false; count as usize]?;
    Ok(flags)
}

/// Sets the flag of a token, if it has one.
fn set_flag(flags: &mut Vec<bool>, token: TokenId)
    ensures { flags.new.items ≡ slice_set flags.old.items token true }
{
    let at = token.number() as usize;
    if at < flags.len() {
        flags[at] = true;
    }
}

/// For each of so many tokens, whether it is among some. Linear in both.
fn flags(alloc: Global, count: u32, tokens: &[TokenId]) -> Result<Vec<bool>, NoMemory>
    ensures { IfOk result (λ flags. AreFlags count tokens.now flags.items) }
{
    let mut flags = no_flags(alloc, count)?;
    for token in tokens {
        set_flag(&mut flags, *token);
    }
    Ok(flags)
}

/// The numbers of an index word; none where it does not stand where it may, or its bytes say none.
fn set_of(
    alloc: Global,
    tokens: &Tokens,
    at: TokenId,
    is_placed: bool,
) -> Result<Option<Vec<u16>>, NoMemory>
    requires { at < length tokens.now.tokens }
    ensures placed { IfOk result (λ found. IfSome found (λ _. is_placed ≡ true)) }
    ensures says { IfOk result (λ found. IfSome found (λ set. Says tokens.now at set.items)) }
    ensures none { result ≡ Ok None → is_placed ≡ true →
        (set : List ℕ) → Says tokens.now at set → ⊥ }
{
    if !is_placed {
        return Ok(None);
    }
    numbers_of(alloc, tokens.bytes(at))
}

fn is_index(tokens: &Tokens, at: TokenId) -> bool
    requires { at < length tokens.now.tokens }
    ensures yes { result ≡ true → IsIndex tokens.now at }
    ensures no { result ≡ false → IsIndex tokens.now at → ⊥ }
{
    matches!(tokens.kind(at), TokenKind::Index)
}

/// Adds the index word at a token, if one stands there, and answers whether it is right.
fn mark(
    alloc: Global,
    tokens: &Tokens,
    flags: &[bool],
    at: TokenId,
    prelude: &mut Prelude,
) -> Result<bool, NoMemory>
    requires within { at < length tokens.now.tokens }
    requires flags { length flags.now ≡ length tokens.now.tokens }
    requires marked { AreMarkedTo tokens.now flags.now at prelude.old }
    ensures right { result ≡ Ok true → AreMarkedTo tokens.now flags.now (at + 1) prelude.new }
    ensures bad { result ≡ Ok false → IsBad tokens.now flags.now at }
{
    if !is_index(tokens, at) {
        return Ok(true);
    }
    match set_of(alloc, tokens, at, flags[at.number() as usize])? {
        Some(set) => {
            prelude.push(at, set.as_slice())?;
            Ok(true)
        }
        None => Ok(false),
    }
}

/// The index words of a unit with their numbers, or the first that is not right.
fn marks(alloc: Global, tokens: &Tokens, flags: &[bool]) -> Result<Prelude, RuleFault>
    requires { length flags.now ≡ length tokens.now.tokens }
    ensures all { IfOk result
        (AreMarkedTo tokens.now flags.now (length tokens.now.tokens)) }
    ensures first { IfErr result (IsFirstBad tokens.now flags.now) }
{
    let mut prelude = Prelude::new(alloc);
    for number in 0..tokens.len() {
        let at = TokenId::new(number);
        if !mark(alloc, tokens, flags, at, &mut prelude)? {
            return Err(RuleFault::BadIndex(at));
        }
    }
    Ok(prelude)
}

/// The first of a body, if there is one, and the first index word that is not right.
fn first_of(body: Option<TokenId>, at: TokenId) -> RuleFault
    ensures { result ≡ first_fault body at }
{
    match body {
        Some(open) if open.number() < at.number() => RuleFault::HasBody(open),
        _ => RuleFault::BadIndex(at),
    }
}

/// The fault at the least token, of a body, if there is one, and of an index word.
fn earlier(body: Option<TokenId>, fault: RuleFault) -> RuleFault
    ensures { result ≡ with_body body fault }
{
    match fault {
        RuleFault::HasBody(token) => RuleFault::HasBody(token),
        RuleFault::BadIndex(token) => first_of(body, token),
        RuleFault::NoMemory => RuleFault::NoMemory,
    }
}

/// The index words of a unit, unless a function has a body.
fn unless_body(body: Option<TokenId>, prelude: Prelude) -> Result<Prelude, RuleFault>
    ensures none { IfOk result (λ it. (it ≡ prelude) × (body ≡ None)) }
    ensures some { IfErr result
        (λ fault. (first : ℕ) × (body ≡ Some first) × (fault ≡ HasBody first)) }
{
    match body {
        Some(open) => Err(RuleFault::HasBody(open)),
        None => Ok(prelude),
    }
}

/// The index words of a unit with their numbers, or the first token at which a rule fails.
///
/// Linear in the tokens, in time and memory, but for sorting the numbers of a word.
pub(crate) fn marks_of(alloc: Global, unit: &Unit, tokens: &Tokens) -> Result<Prelude, RuleFault>
    ensures rules { IfOk result (λ _. NoneFails tokens.now (items_of unit.now)) }
    ensures marks { IfOk result (AreMarks tokens.now) }
    ensures first { IfErr result (IsRuleFault tokens.now (items_of unit.now)) }
{
    let found = places(alloc, unit)?;
    let flags = flags(alloc, tokens.len(), found.as_slice())?;
    let body = first_body(unit.items.as_slice());
    match marks(alloc, tokens, flags.as_slice()) {
        Ok(prelude) => unless_body(body, prelude),
        Err(fault) => Err(earlier(body, fault)),
    }
}
