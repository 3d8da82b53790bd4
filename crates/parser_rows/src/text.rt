//! Texts that grow, and the pieces of trees that hold no other node.

use c_lexer::Tokens;
use c_syntax::{
    ArrayWord, AsmLabel, Assert, Attr, Ellipsis, Expr, Group, Identifier, PointerWord, Qual,
};
use c_words::Punct;
use qual_base::{NoMemory, Numbered, TokenId};
use std::alloc::Global;

/// A text that grows piece by piece, and whether no piece was lost for want of memory.
#[derive(Drop)]
pub(crate) struct Text {
    pieces: String,
    complete: bool,
}

impl Text {
    pub(crate) fn new(alloc: Global) -> Text {
        Text {
            pieces: String::new(alloc),
            complete: true,
        }
    }

    /// The whole text.
    pub(crate) fn done(self) -> Result<String, NoMemory> {
        let Text { pieces, complete } = self;
        if complete { Ok(pieces) } else { Err(NoMemory) }
    }

    pub(crate) fn put(&mut self, piece: &str) {
        if self.pieces.push_str(piece).is_err() {
            self.complete = false;
        }
    }

    /// What stands before an item of a list.
    pub(crate) fn put_before(&mut self, is_first: bool, first: &str, later: &str) {
        if is_first {
            self.put(first);
        } else {
            self.put(later);
        }
    }

    /// The bytes of a token.
    pub(crate) fn put_token(&mut self, tokens: &Tokens, at: TokenId) {
        if at.number() >= tokens.len() {
            self.put("?");
            return;
        }
        for byte in tokens.bytes(at) {
            if self.pieces.push(*byte as char).is_err() {
                self.complete = false;
            }
        }
    }

    pub(crate) fn put_qual(&mut self, tokens: &Tokens, qual: Qual) {
        match qual {
            Qual::Word(word) => self.put_token(tokens, word.token),
            Qual::Element { token } | Qual::Index { token } => self.put_token(tokens, token),
        }
    }

    pub(crate) fn put_tag(&mut self, tokens: &Tokens, tag: Option<Identifier>) {
        match tag {
            Some(tag) => {
                self.put(" ");
                self.put_token(tokens, tag.token);
            }
            None => {}
        }
    }
}

/// The tokens of a group, with nothing between them.
pub(crate) fn put_group(text: &mut Text, tokens: &Tokens, group: Group) {
    for number in group.first.number()..tokens.len() {
        if number > group.last.number() {
            return;
        }
        text.put_token(tokens, TokenId::new(number));
    }
}

/// An attribute, by a short word.
pub(crate) fn put_attr(text: &mut Text, tokens: &Tokens, attr: Attr) {
    text.put("attr");
    put_group(text, tokens, attr.group);
}

/// Attributes with what stands before and behind each.
pub(crate) fn put_attrs(
    text: &mut Text,
    tokens: &Tokens,
    before: &str,
    attrs: &[Attr],
    behind: &str,
) {
    for attr in attrs {
        text.put(before);
        put_attr(text, tokens, *attr);
        text.put(behind);
    }
}

/// As many words as there are tokens of `__extension__`.
pub(crate) fn put_extensions(text: &mut Text, extensions: &[TokenId]) {
    for _ in extensions {
        text.put("ext ");
    }
}

pub(crate) fn put_label(text: &mut Text, tokens: &Tokens, label: &Option<AsmLabel>) {
    match label {
        Some(label) => {
            text.put(" asm");
            put_group(text, tokens, label.group);
        }
        None => {}
    }
}

pub(crate) fn put_assert(text: &mut Text, tokens: &Tokens, it: Assert) {
    text.put("assert");
    put_group(text, tokens, it.group);
    text.put(";");
}

pub(crate) fn put_pointer_words(text: &mut Text, tokens: &Tokens, words: &[PointerWord]) {
    for word in words {
        match word {
            PointerWord::Qual(qual) => text.put_qual(tokens, *qual),
            PointerWord::Attr(attr) => put_attr(text, tokens, *attr),
        }
        text.put(" ");
    }
}

pub(crate) fn put_array_words(text: &mut Text, tokens: &Tokens, words: &[ArrayWord]) {
    for word in words {
        text.put(" ");
        match word {
            ArrayWord::Static { token } => text.put_token(tokens, *token),
            ArrayWord::Qual(qual) => text.put_qual(tokens, *qual),
        }
    }
}

/// The end of parameters.
pub(crate) fn put_ellipsis(text: &mut Text, tokens: &Tokens, ellipsis: &Option<Ellipsis>) {
    match ellipsis {
        Some(ellipsis) => {
            text.put(", ");
            for qual in ellipsis.quals.as_slice() {
                text.put_qual(tokens, *qual);
                text.put(" ");
            }
            text.put_token(tokens, ellipsis.dots);
        }
        None => {}
    }
    text.put(")");
}

/// Adjacent texts.
pub(crate) fn put_texts(text: &mut Text, tokens: &Tokens, texts: &[TokenId]) {
    let mut is_first = true;
    for at in texts {
        text.put_before(is_first, "text(", " ");
        text.put_token(tokens, *at);
        is_first = false;
    }
    text.put(")");
}

/// The sign of an assignment, a prefix or a postfix form.
pub(crate) fn sign_text(sign: Punct) -> &'static str {
    match sign {
        Punct::Equal => "=",
        Punct::StarEqual => "*=",
        Punct::SlashEqual => "/=",
        Punct::PercentEqual => "%=",
        Punct::PlusEqual => "+=",
        Punct::MinusEqual => "-=",
        Punct::ShiftLeftEqual => "<<=",
        Punct::ShiftRightEqual => ">>=",
        Punct::AmpersandEqual => "&=",
        Punct::CaretEqual => "^=",
        Punct::BarEqual => "|=",
        Punct::PlusPlus => "++",
        Punct::MinusMinus => "--",
        Punct::Ampersand => "&",
        Punct::Star => "*",
        Punct::Plus => "+",
        Punct::Minus => "-",
        Punct::Tilde => "~",
        Punct::Bang => "!",
        _ => "?",
    }
}

/// The operator between two operands.
pub(crate) fn operator_text(e: &Expr) -> &'static str {
    match e {
        Expr::Comma { .. } => ",",
        Expr::Assign { sign, .. } => sign_text(*sign),
        Expr::Or { .. } => "||",
        Expr::And { .. } => "&&",
        Expr::BitOr { .. } => "|",
        Expr::BitXor { .. } => "^",
        Expr::BitAnd { .. } => "&",
        Expr::Equal { .. } => "==",
        Expr::NotEqual { .. } => "!=",
        Expr::Less { .. } => "<",
        Expr::Greater { .. } => ">",
        Expr::LessEqual { .. } => "<=",
        Expr::GreaterEqual { .. } => ">=",
        Expr::ShiftLeft { .. } => "<<",
        Expr::ShiftRight { .. } => ">>",
        Expr::Plus { .. } => "+",
        Expr::Minus { .. } => "-",
        Expr::Times { .. } => "*",
        Expr::Divide { .. } => "/",
        Expr::Remainder { .. } => "%",
        _ => "?",
    }
}
