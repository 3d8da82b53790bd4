//! What a token begins as the first of an operand, behind one, and between two.

ghost use Rattle.std.specs.Prelude.{◌≡◌, nat_lt};
ghost use Rattle.c_tree.specs.Levels.{binary_level, is_assignment};
ghost use Rattle.c_reading.specs.Expressing as exprs;

use c_reading::{Infix, Opening, PostfixForm, Reach};
use c_words::{Keyword, Punct, TokenKind};
use held_scopes::TypedefScopes;

/// Whether a sign is `=` or a compound assignment (C99, 6.5.16).
fn is_assignment(sign: Punct) -> bool
    ensures { result ≡ is_assignment sign }
{
    match sign {
        Punct::Equal | Punct::StarEqual | Punct::SlashEqual | Punct::PercentEqual => true,
        Punct::PlusEqual | Punct::MinusEqual => true,
        Punct::ShiftLeftEqual | Punct::ShiftRightEqual => true,
        Punct::AmpersandEqual | Punct::CaretEqual | Punct::BarEqual => true,
        _ => false,
    }
}

/// Whether a sign is a binary operator of the levels from `||` to `*` (C99, 6.5.5 to 6.5.14).
fn is_binary(sign: Punct) -> bool
    ensures { result ≡ nat_lt 0 (binary_level sign) }
{
    match sign {
        Punct::BarBar | Punct::AmpersandAmpersand => true,
        Punct::Bar | Punct::Caret | Punct::Ampersand => true,
        Punct::EqualEqual | Punct::BangEqual => true,
        Punct::Less | Punct::Greater | Punct::LessEqual | Punct::GreaterEqual => true,
        Punct::ShiftLeft | Punct::ShiftRight => true,
        Punct::Plus | Punct::Minus => true,
        Punct::Star | Punct::Slash | Punct::Percent => true,
        _ => false,
    }
}

/// What a sign is between two operands.
fn punct_infix(sign: Punct) -> Infix
    ensures { result ≡ exprs.punct_infix sign }
{
    match sign {
        Punct::Comma => Infix::Comma,
        Punct::Question => Infix::Question,
        _ => {
            if is_assignment(sign) {
                Infix::Assign(sign)
            } else if is_binary(sign) {
                Infix::Binary(sign)
            } else {
                Infix::Nothing
            }
        }
    }
}

/// What a token of a kind is between two operands.
pub fn infix_of(kind: TokenKind) -> Infix
    ensures { result ≡ exprs.infix_of kind }
{
    match kind {
        TokenKind::Punct(sign) => punct_infix(sign),
        _ => Infix::Nothing,
    }
}

/// What an operand begins with, of which the first token is a sign.
fn punct_opening(sign: Punct) -> Opening
    ensures { result ≡ exprs.punct_opening sign }
{
    match sign {
        Punct::OpenParen => Opening::Paren,
        Punct::PlusPlus => Opening::Prefix(Punct::PlusPlus, Reach::Unary),
        Punct::MinusMinus => Opening::Prefix(Punct::MinusMinus, Reach::Unary),
        Punct::Ampersand => Opening::Prefix(Punct::Ampersand, Reach::Castable),
        Punct::Star => Opening::Prefix(Punct::Star, Reach::Castable),
        Punct::Plus => Opening::Prefix(Punct::Plus, Reach::Castable),
        Punct::Minus => Opening::Prefix(Punct::Minus, Reach::Castable),
        Punct::Tilde => Opening::Prefix(Punct::Tilde, Reach::Castable),
        Punct::Bang => Opening::Prefix(Punct::Bang, Reach::Castable),
        Punct::AmpersandAmpersand => Opening::Label,
        _ => Opening::Nothing,
    }
}

/// What an operand begins with, of which the first token is a keyword.
fn keyword_opening(keyword: Keyword) -> Opening
    ensures { result ≡ exprs.keyword_opening keyword }
{
    match keyword {
        Keyword::Sizeof => Opening::Sizeof(Keyword::Sizeof),
        Keyword::Alignof => Opening::Sizeof(Keyword::Alignof),
        Keyword::Extension => Opening::Extension,
        Keyword::VaArg => Opening::VaArg,
        Keyword::VaStart => Opening::VaStart,
        Keyword::VaCopy => Opening::VaCopy,
        Keyword::Offsetof => Opening::Offset,
        Keyword::Part => Opening::Part,
        Keyword::Compatible => Opening::Compat,
        Keyword::Choose => Opening::Choose,
        Keyword::Generic => Opening::Generic,
        _ => Opening::Nothing,
    }
}

/// What an operand begins with, of which the first token has a kind.
pub fn opening_of(kind: TokenKind) -> Opening
    ensures { result ≡ exprs.opening_of kind }
{
    match kind {
        TokenKind::Punct(sign) => punct_opening(sign),
        TokenKind::Keyword(keyword) => keyword_opening(keyword),
        TokenKind::Name(name) => Opening::Name(name),
        TokenKind::Number => Opening::Number,
        TokenKind::Char => Opening::Char,
        TokenKind::Text => Opening::Text,
        _ => Opening::Nothing,
    }
}

/// Whether an operand begins so, where a name is no typedef name.
pub fn is_opening(scopes: &TypedefScopes, opening: Opening) -> bool
    ensures { result ≡ exprs.is_opening scopes.now opening }
{
    match opening {
        Opening::Nothing => false,
        Opening::Name(name) => !scopes.names_type(name),
        Opening::Label => scopes.is_wide(),
        _ => true,
    }
}

/// Whether an expression begins with a token of a kind.
pub fn begins_expr(scopes: &TypedefScopes, kind: TokenKind) -> bool
    ensures { result ≡ exprs.begins_expr scopes.now kind }
{
    is_opening(scopes, opening_of(kind))
}

/// What a token of a kind begins behind an operand.
pub fn form_of(kind: TokenKind) -> PostfixForm
    ensures { result ≡ exprs.form_of kind }
{
    match kind {
        TokenKind::Punct(Punct::OpenBracket) => PostfixForm::Index,
        TokenKind::Punct(Punct::OpenParen) => PostfixForm::Call,
        TokenKind::Punct(Punct::Dot) => PostfixForm::Dot,
        TokenKind::Punct(Punct::Arrow) => PostfixForm::Arrow,
        TokenKind::Punct(Punct::PlusPlus) => PostfixForm::Post(Punct::PlusPlus),
        TokenKind::Punct(Punct::MinusMinus) => PostfixForm::Post(Punct::MinusMinus),
        _ => PostfixForm::Nothing,
    }
}

/// Whether an expression that goes so far goes on with a comma.
pub fn takes_comma(reach: Reach) -> bool
    ensures { result ≡ exprs.takes_comma reach }
{
    match reach {
        Reach::Whole => true,
        Reach::Assigned | Reach::Conditional | Reach::Castable | Reach::Unary => false,
    }
}

/// Whether an expression that goes so far goes on with an assignment.
pub fn takes_assign(reach: Reach) -> bool
    ensures { result ≡ exprs.takes_assign reach }
{
    match reach {
        Reach::Whole | Reach::Assigned => true,
        Reach::Conditional | Reach::Castable | Reach::Unary => false,
    }
}

/// Whether a token of a kind is `.`.
pub fn is_dot(kind: TokenKind) -> bool
    ensures { result ≡ exprs.is_dot kind }
{
    match kind {
        TokenKind::Punct(Punct::Dot) => true,
        _ => false,
    }
}

/// Whether a designator begins with a token of a kind, or a step of an offset (C99, 6.7.8, 7.17).
pub fn begins_desig(kind: TokenKind) -> bool
    ensures { result ≡ exprs.begins_desig kind }
{
    match kind {
        TokenKind::Punct(Punct::Dot | Punct::OpenBracket) => true,
        _ => false,
    }
}
