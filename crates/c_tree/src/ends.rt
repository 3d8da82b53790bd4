//! The first and the last token of an expression, and the token that it is known by.

ghost use Rattle.std.specs.Prelude.{◌≡◌};
ghost use Rattle.c_tree.specs.View.{expr_of, init_list_of};
ghost use Rattle.c_tree.specs.Ends.{first_token, last_token, key_token, first_text, last_text, list_end};

use c_syntax::{Expr, InitList};
use qual_base::{Numbered, TokenId};

/// The first of adjacent texts. Token 0 where there are none, as in no well formed expression.
fn first_of(texts: &[TokenId]) -> TokenId
    ensures { result ≡ first_text texts.now }
{
    match texts {
        [first, ..] => *first,
        [] => TokenId::new(0),
    }
}

/// The last of adjacent texts. Token 0 where there are none, as in no well formed expression.
fn last_of(texts: &[TokenId]) -> TokenId
    ensures { result ≡ last_text texts.now }
{
    match texts.last() {
        Some(last) => *last,
        None => TokenId::new(0),
    }
}

/// The closing brace of an initialiser.
fn end_of(list: &InitList) -> TokenId
    ensures { result ≡ list_end (init_list_of list.now) }
{
    list.close
}

/// The first token of an expression's text.
///
/// Linear in the number of left operands down to it, which is less than the height. Recursive as deep.
pub fn first(e: &Expr) -> TokenId
    ensures { result ≡ first_token (expr_of e.now) }
{
    match e {
        Expr::Comma { left, .. }
        | Expr::Assign { left, .. }
        | Expr::Or { left, .. }
        | Expr::And { left, .. }
        | Expr::BitOr { left, .. }
        | Expr::BitXor { left, .. }
        | Expr::BitAnd { left, .. }
        | Expr::Equal { left, .. }
        | Expr::NotEqual { left, .. }
        | Expr::Less { left, .. }
        | Expr::Greater { left, .. }
        | Expr::LessEqual { left, .. }
        | Expr::GreaterEqual { left, .. }
        | Expr::ShiftLeft { left, .. }
        | Expr::ShiftRight { left, .. }
        | Expr::Plus { left, .. }
        | Expr::Minus { left, .. }
        | Expr::Times { left, .. }
        | Expr::Divide { left, .. }
        | Expr::Remainder { left, .. } => first(left),
        Expr::Cond { condition, .. } => first(condition),
        Expr::Index { base, .. } | Expr::Dot { base, .. } | Expr::Arrow { base, .. } => first(base),
        Expr::Call { callee, .. } => first(callee),
        Expr::Post { operand, .. } => first(operand),
        Expr::Cast { open, .. }
        | Expr::Compound { open, .. }
        | Expr::Paren { open, .. }
        | Expr::StmtExpr { open, .. } => *open,
        Expr::Prefix { token, .. }
        | Expr::NameUse { token, .. }
        | Expr::NumberUse { token }
        | Expr::CharUse { token } => *token,
        Expr::Sizeof { keyword, .. } | Expr::SizeofType { keyword, .. } => keyword.token,
        Expr::Ext { keyword, .. }
        | Expr::VaArg { keyword, .. }
        | Expr::VaStart { keyword, .. }
        | Expr::VaCopy { keyword, .. }
        | Expr::Offset { keyword, .. }
        | Expr::Part { keyword, .. }
        | Expr::Compat { keyword, .. }
        | Expr::Choose { keyword, .. }
        | Expr::Generic { keyword, .. } => *keyword,
        Expr::LabelUse { token, .. } => *token,
        Expr::TextUse { texts } => first_of(texts.as_slice()),
    }
}

/// The last token of an expression's text.
///
/// Linear in the number of right operands down to it, which is less than the height. Recursive as deep.
pub fn last(e: &Expr) -> TokenId
    ensures { result ≡ last_token (expr_of e.now) }
{
    match e {
        Expr::Comma { right, .. }
        | Expr::Assign { right, .. }
        | Expr::Or { right, .. }
        | Expr::And { right, .. }
        | Expr::BitOr { right, .. }
        | Expr::BitXor { right, .. }
        | Expr::BitAnd { right, .. }
        | Expr::Equal { right, .. }
        | Expr::NotEqual { right, .. }
        | Expr::Less { right, .. }
        | Expr::Greater { right, .. }
        | Expr::LessEqual { right, .. }
        | Expr::GreaterEqual { right, .. }
        | Expr::ShiftLeft { right, .. }
        | Expr::ShiftRight { right, .. }
        | Expr::Plus { right, .. }
        | Expr::Minus { right, .. }
        | Expr::Times { right, .. }
        | Expr::Divide { right, .. }
        | Expr::Remainder { right, .. } => last(right),
        Expr::Cond { otherwise, .. } => last(otherwise),
        Expr::Cast { operand, .. }
        | Expr::Prefix { operand, .. }
        | Expr::Sizeof { operand, .. }
        | Expr::Ext { operand, .. }
        | Expr::Part { operand, .. } => last(operand),
        Expr::Dot { member, .. } | Expr::Arrow { member, .. } => member.token,
        Expr::Post { token, .. }
        | Expr::NameUse { token, .. }
        | Expr::NumberUse { token }
        | Expr::CharUse { token } => *token,
        Expr::SizeofType { close, .. }
        | Expr::Index { close, .. }
        | Expr::Call { close, .. }
        | Expr::Paren { close, .. }
        | Expr::StmtExpr { close, .. }
        | Expr::VaArg { close, .. }
        | Expr::VaStart { close, .. }
        | Expr::VaCopy { close, .. }
        | Expr::Offset { close, .. }
        | Expr::Compat { close, .. }
        | Expr::Choose { close, .. }
        | Expr::Generic { close, .. } => *close,
        Expr::LabelUse { label, .. } => label.token,
        Expr::Compound { list, .. } => end_of(list),
        Expr::TextUse { texts } => last_of(texts.as_slice()),
    }
}

/// The token that an expression is known by: its operator or bracket, and else its first token.
///
/// The bracket of a cast, a compound literal, a parenthesis or a statement expression is its first token. Constant
/// time.
pub fn key(e: &Expr) -> TokenId
    ensures { result ≡ key_token (expr_of e.now) }
{
    match e {
        Expr::Comma { token, .. }
        | Expr::Assign { token, .. }
        | Expr::Or { token, .. }
        | Expr::And { token, .. }
        | Expr::BitOr { token, .. }
        | Expr::BitXor { token, .. }
        | Expr::BitAnd { token, .. }
        | Expr::Equal { token, .. }
        | Expr::NotEqual { token, .. }
        | Expr::Less { token, .. }
        | Expr::Greater { token, .. }
        | Expr::LessEqual { token, .. }
        | Expr::GreaterEqual { token, .. }
        | Expr::ShiftLeft { token, .. }
        | Expr::ShiftRight { token, .. }
        | Expr::Plus { token, .. }
        | Expr::Minus { token, .. }
        | Expr::Times { token, .. }
        | Expr::Divide { token, .. }
        | Expr::Remainder { token, .. }
        | Expr::Dot { token, .. }
        | Expr::Arrow { token, .. }
        | Expr::Post { token, .. } => *token,
        Expr::Cond { question, .. } => *question,
        Expr::Index { open, .. } | Expr::Call { open, .. } => *open,
        Expr::Cast { open, .. }
        | Expr::Compound { open, .. }
        | Expr::Paren { open, .. }
        | Expr::StmtExpr { open, .. } => *open,
        Expr::Prefix { token, .. }
        | Expr::NameUse { token, .. }
        | Expr::NumberUse { token }
        | Expr::CharUse { token } => *token,
        Expr::Sizeof { keyword, .. } | Expr::SizeofType { keyword, .. } => keyword.token,
        Expr::Ext { keyword, .. }
        | Expr::VaArg { keyword, .. }
        | Expr::VaStart { keyword, .. }
        | Expr::VaCopy { keyword, .. }
        | Expr::Offset { keyword, .. }
        | Expr::Part { keyword, .. }
        | Expr::Compat { keyword, .. }
        | Expr::Choose { keyword, .. }
        | Expr::Generic { keyword, .. } => *keyword,
        Expr::LabelUse { token, .. } => *token,
        Expr::TextUse { texts } => first_of(texts.as_slice()),
    }
}
