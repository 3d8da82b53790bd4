//! The tokens of a unit.

ghost use Rattle.std.specs.Prelude.{ℕ, ◌≡◌, ◌+◌, ◌-◌, ◌<◌, ◌≤◌, ◌^◌, length, Some, option_map};
ghost use Rattle.std.specs.Prelude.{slice_get, slice_range, IfSome, IfOk, IfErr};
ghost use Rattle.c_lexer.specs.Places.{IsSpot};
ghost use Rattle.c_lexer.specs.Tokens.{Lexed, IsEnded, IsSound, keyword_meaning, mark_of_kind};
ghost use Rattle.c_lexer.specs.Tokens.{start_of, token_spot};

use crate::places::Mark;
use crate::text::Text;
use crate::token::Token;
use c_words::{Keyword, TokenKind};
use qual_base::{Elem, LatticeNo, Numbered, Spot, TokenId, UnitNo};
use std::marker::Model;

/// What the keywords mean that a lattice may name.
#[derive(Drop)]
pub(crate) struct KeywordMarks {
    pub(crate) constant: Option<(LatticeNo, Elem)>,
    pub(crate) volatile: Option<(LatticeNo, Elem)>,
    pub(crate) restrict: Option<(LatticeNo, Elem)>,
}

impl KeywordMarks {
    fn of(&self, keyword: Keyword) -> Option<(LatticeNo, Elem)>
        ensures { result
            ≡ keyword_meaning self.now.constant self.now.volatile self.now.restrict keyword }
    {
        match keyword {
            Keyword::Const => self.constant,
            Keyword::Volatile => self.volatile,
            Keyword::Restrict => self.restrict,
            _ => None,
        }
    }
}

/// The tokens of a unit with its bytes, which it borrows. The last token is `End`.
///
/// A token takes 16 bytes of memory, a line feed and a linemarker 4 and 16.
#[derive(Drop)]
pub struct Tokens<'a> {
    text: Text<'a>,
    wide: bool,
    tokens: Vec<Token>,
    marks: Vec<Mark>,
    keywords: KeywordMarks,
}

impl<'a> Model for Tokens<'a> {
    ghost use Rattle.std.specs.Prelude.{ℕ, ◌≡◌, ◌<◌, ◌-◌, ◌^◌, length};
    ghost use Rattle.c_lexer.specs.Tokens.{Lexed, IsSound};

    ghost Value = { Lexed };

    ghost view = { λ a. record {
      unit = a.text.0;
      wide = a.wide;
      bytes = a.text.1;
      tokens = a.tokens.items;
      marks = a.marks.items;
      constant = a.keywords.constant;
      volatile = a.keywords.volatile;
      restrict = a.keywords.restrict;
    } };

    ghost invariant = { λ a. IsSound a.text.1 a.tokens.items a.marks.items };
}

impl<'a> Tokens<'a> {
    pub(crate) fn new(
        text: Text<'a>,
        wide: bool,
        tokens: Vec<Token>,
        marks: Vec<Mark>,
        keywords: KeywordMarks,
    ) -> Self
        requires { IsSound text.1 tokens.items marks.items }
        ensures { result ≡ record {
          unit = text.entry.0;
          wide = wide;
          bytes = text.entry.1;
          tokens = tokens.items;
          marks = marks.items;
          constant = keywords.constant;
          volatile = keywords.volatile;
          restrict = keywords.restrict;
        } }
    {
        Tokens {
            text,
            wide,
            tokens,
            marks,
            keywords,
        }
    }

    pub fn unit(&self) -> UnitNo
        ensures { result ≡ self.now.unit }
    {
        self.text.unit()
    }

    /// Whether the unit is read as wider C.
    pub fn is_wide(&self) -> bool
        ensures { result ≡ self.now.wide }
    {
        self.wide
    }

    pub fn unit_bytes(&self) -> &[u8]
        ensures { result.now ≡ self.now.bytes }
    {
        self.text.bytes()
    }

    /// How many tokens there are, `End` among them.
    pub fn len(&self) -> u32
        ensures { result ≡ length self.now.tokens }
    {
        self.tokens.len() as u32
    }

    /// The last token is the end of the unit.
    pub fn is_ended(&self)
        ensures { IsEnded self.now.tokens }
    {
        let _ = &self.tokens;
    }

    fn token(&self, at: TokenId) -> Token
        requires { at < length self.now.tokens }
        ensures token { slice_get self.now.tokens at ≡ Some result }
        ensures order { result.start ≤ result.end }
        ensures within { result.end ≤ length self.now.bytes }
    {
        self.tokens[at.number() as usize]
    }

    pub fn kind(&self, at: TokenId) -> TokenKind
        requires { at < length self.now.tokens }
        ensures { option_map (λ token. token.kind) (slice_get self.now.tokens at) ≡ Some result }
    {
        self.token(at).kind
    }

    /// The bytes that spell a token.
    pub fn bytes(&self, at: TokenId) -> &[u8]
        requires { at < length self.now.tokens }
        ensures { option_map (λ token. slice_range self.now.bytes token.start token.end)
            (slice_get self.now.tokens at) ≡ Some result.now }
    {
        let token = self.token(at);
        &self.text.bytes()[token.start as usize..token.end as usize]
    }

    /// Where a token begins among the unit's bytes.
    pub fn start(&self, at: TokenId) -> u32
        requires { at < length self.now.tokens }
        ensures { option_map (λ token. token.start) (slice_get self.now.tokens at) ≡ Some result }
    {
        self.token(at).start
    }

    /// How a report names the place of a token, in time logarithmic in the numbers of lines and linemarkers.
    pub fn place_of(&self, at: TokenId) -> Spot
        requires { at < length self.now.tokens }
        ensures spot { result ≡ token_spot self.now at }
        ensures names { IsSpot self.now.unit self.now.bytes self.now.marks
            (start_of self.now.tokens at) result }
    {
        let start = self.start(at);
        self.text.spot_of(&self.marks, start)
    }

    /// What a token means in a lattice, where it is a `$` word, or a keyword that a lattice names.
    pub fn mark_of(&self, at: TokenId) -> Option<(LatticeNo, Elem)>
        requires { at < length self.now.tokens }
        ensures { option_map (λ token. mark_of_kind self.now token.kind)
            (slice_get self.now.tokens at) ≡ Some result }
    {
        match self.kind(at) {
            TokenKind::Qual(lattice, elem) => Some((lattice, elem)),
            TokenKind::Keyword(keyword) => self.keywords.of(keyword),
            _ => None,
        }
    }
}
