//! Words of a declaration, of which C99 lists the mixes (6.7.1 and 6.7.2), and others.

use crate::answers::tokens_of;
use c_lexer::Tokens;
use c_specs::{Mix, SpecFault, class_of, read_specs};
use c_syntax::{Attr, Group, Identifier, Qual, SpecWord, TypedefName, Word};
use c_words::{Keyword, TokenKind};
use qual_base::{NoMemory, Numbered, TokenId};
use std::alloc::{AllocError, Global};

/// The word of a keyword; a struct, union or enum has the name behind it for its tag.
fn keyword_word(
    alloc: Global,
    token: TokenId,
    keyword: Keyword,
    tag: Option<Identifier>,
) -> Result<SpecWord, NoMemory> {
    let word = Word { token, keyword };
    match keyword {
        Keyword::Typedef | Keyword::Extern | Keyword::Static => Ok(SpecWord::Storage(word)),
        Keyword::Auto | Keyword::Register => Ok(SpecWord::Storage(word)),
        Keyword::Thread => Ok(SpecWord::Thread { token }),
        Keyword::Inline => Ok(SpecWord::Inline { token }),
        Keyword::Noreturn => Ok(SpecWord::Noreturn { token }),
        Keyword::Const | Keyword::Volatile | Keyword::Restrict => Ok(SpecWord::Qual(Qual::Word(
            word,
        ))),
        Keyword::Struct | Keyword::Union => c_tree::struct_word(
            alloc,
            word,
            Vec::new(alloc),
            tag,
            None,
        ),
        Keyword::Enum => c_tree::enum_word(alloc, token, Vec::new(alloc), tag, None),
        Keyword::Attribute => {
            Ok(SpecWord::Attr(Attr {
                keyword: token,
                group: Group {
                    first: token,
                    last: token,
                },
            }))
        }
        _ => Ok(SpecWord::Type(word)),
    }
}

/// The name of a token, if it is one.
fn name_at(tokens: &Tokens, at: u32) -> Option<Identifier> {
    if at >= tokens.len() {
        return None;
    }
    let token = TokenId::new(at);
    match tokens.kind(token) {
        TokenKind::Name(name) => Some(Identifier { token, name }),
        _ => None,
    }
}

/// Whether a keyword has a tag.
fn has_tag(keyword: Keyword) -> bool {
    matches!(keyword, Keyword::Struct | Keyword::Union | Keyword::Enum)
}

/// The words of a prelude, where `$_` words stand, in which each name that is no tag is a typedef name.
fn words_of(alloc: Global, source: &[u8]) -> Result<Vec<SpecWord>, AllocError> {
    let mut words = Vec::new(alloc);
    let Ok(Some(tokens)) = tokens_of(alloc, 0, false, source) else {
        return Ok(words);
    };
    let mut is_tag = false;
    for at in 0..tokens.len() {
        let token = TokenId::new(at);
        let mut tags = false;
        match tokens.kind(token) {
            TokenKind::Keyword(keyword) => {
                tags = has_tag(keyword);
                let tag = if tags {
                    name_at(&tokens, at.saturating_add(1))
                } else {
                    None
                };
                let Ok(word) = keyword_word(alloc, token, keyword, tag) else {
                    return Err(AllocError);
                };
                words.push(word)?;
            }
            TokenKind::Qual(_, _) => words.push(SpecWord::Qual(Qual::Element { token }))?,
            TokenKind::Index => words.push(SpecWord::Qual(Qual::Index { token }))?,
            TokenKind::Name(name) if !is_tag => {
                words.push(SpecWord::TypedefName(TypedefName { token, name }))?;
            }
            _ => {}
        }
        is_tag = tags;
    }
    Ok(words)
}

/// The number of the token at which words are no mix, or `unfinished`.
fn fault_text(alloc: Global, fault: SpecFault) -> Result<String, NoMemory> {
    match fault {
        SpecFault::BadMix(token) => Ok(format!(in alloc; "bad at {}", token.number())?),
        SpecFault::Unfinished => Ok(String::from_str(alloc, "unfinished")?),
    }
}

/// How many words there are of a mix, the number of the token at which they are none, or `unfinished`.
pub(crate) fn mix_text(alloc: Global, source: &[u8]) -> Result<String, NoMemory> {
    match read_specs(words_of(alloc, source)?) {
        Ok(specs) => Ok(format!(in alloc; "mix of {}", specs.words.len())?),
        Err(fault) => fault_text(alloc, fault),
    }
}

/// The mix of words, if they are one or begin one.
fn mix_of(words: &[SpecWord]) -> Option<Mix> {
    let mut mix = Mix::new();
    for word in words {
        mix = mix.with_class(class_of(word))?;
    }
    Some(mix)
}

/// Whether a type stands among words.
pub(crate) fn typed_text(alloc: Global, source: &[u8]) -> Result<String, NoMemory> {
    let words = words_of(alloc, source)?;
    let text = match mix_of(&words) {
        Some(mix) if mix.has_type() => "a type",
        Some(_) => "no type",
        None => "no mix",
    };
    Ok(String::from_str(alloc, text)?)
}
