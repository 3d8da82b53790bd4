//! Tapes of units by words, an op a word.
//!
//! Tokens and names are numbers. Of specifiers there are `typedef`, `type:token:name` for a typedef name,
//! `struct:token:name` for a tag with a body, `untagged:token` for a body without one, `struct_end`, `unnamed:token` for a
//! member without a declarator, and `specs_end`; of declarators `name:token:name`, `params` of the function of a body,
//! `param`, `params_end`, `pointer`, `function`, `declare`, `member` and `end`; of statements `enter`, `leave`, `body` and
//! `body_end`; and the expressions `use:token:name` and, before the `(` of a call, `called:token:name`.

use crate::words::{Word, word_of};
use c_words::Keyword;
use qual_base::{NameId, NoMemory, Numbered, TokenId};
use std::alloc::Global;
use tape_ops::{DeclrOp, ExprOp, Op, SpecOp, StmtOp, TagKind};

/// The op of a word of specifiers.
fn spec_op(word: &Word) -> Option<SpecOp> {
    let token = TokenId::new(word.first);
    let name = NameId::new(word.second);
    let kind = TagKind::Struct;
    match word.name {
        b"typedef" => Some(SpecOp::Storage {
            keyword: Keyword::Typedef,
        }),
        b"type" => Some(SpecOp::Typedef { token, name }),
        b"struct" => Some(SpecOp::TagBody { kind, token, name }),
        b"untagged" => Some(SpecOp::Untagged { kind, token }),
        b"struct_end" => Some(SpecOp::BodyEnd),
        b"unnamed" => Some(SpecOp::UnnamedMember { token }),
        b"specs_end" => Some(SpecOp::SpecsEnd),
        _ => None,
    }
}

/// The op of a word of declarators.
fn declr_op(word: &Word) -> Option<DeclrOp> {
    let token = TokenId::new(word.first);
    let name = NameId::new(word.second);
    match word.name {
        b"name" => Some(DeclrOp::DeclName { token, name }),
        b"params" => Some(DeclrOp::ParamsBegin { is_own: true }),
        b"param" => Some(DeclrOp::Param),
        b"params_end" => Some(DeclrOp::ParamsEnd),
        b"pointer" => Some(DeclrOp::Pointer),
        b"function" => Some(DeclrOp::Function {
            has_ellipsis: false,
        }),
        b"declare" => Some(DeclrOp::Declare),
        b"member" => Some(DeclrOp::Member),
        b"end" => Some(DeclrOp::DeclarationEnd),
        _ => None,
    }
}

/// The op of a word of statements.
fn stmt_op(word: &Word) -> Option<StmtOp> {
    match word.name {
        b"enter" => Some(StmtOp::Enter),
        b"leave" => Some(StmtOp::Leave),
        b"body" => Some(StmtOp::FunctionBody),
        b"body_end" => Some(StmtOp::FunctionEnd),
        _ => None,
    }
}

/// The op of a word of expressions.
fn expr_op(word: &Word) -> Option<ExprOp> {
    let token = TokenId::new(word.first);
    let name = NameId::new(word.second);
    match word.name {
        b"use" => Some(ExprOp::Name {
            is_called: false,
            token,
            name,
        }),
        b"called" => Some(ExprOp::Name {
            is_called: true,
            token,
            name,
        }),
        _ => None,
    }
}

/// The op of a word.
fn op_of(word: &Word) -> Option<Op> {
    if let Some(op) = spec_op(word) {
        return Some(Op::Spec(op));
    }
    if let Some(op) = declr_op(word) {
        return Some(Op::Declr(op));
    }
    if let Some(op) = stmt_op(word) {
        return Some(Op::Stmt(op));
    }
    Some(Op::Expr(expr_op(word)?))
}

/// Adds ops to a tape.
fn put_ops(tape: &mut Vec<Op>, ops: &[Op]) -> Result<(), NoMemory> {
    tape.extend_from_slice(ops)?;
    Ok(())
}

/// Adds the op of a word to a tape; whether it is one.
fn put_word(tape: &mut Vec<Op>, word: &Word) -> Result<bool, NoMemory> {
    match op_of(word) {
        Some(op) => {
            put_ops(tape, &[op])?;
            Ok(true)
        }
        None => Ok(false),
    }
}

/// Adds the ops of words to a tape; whether each word is one.
fn put_words(tape: &mut Vec<Op>, words: &str) -> Result<bool, NoMemory> {
    for text in words.split_whitespace() {
        if !put_word(tape, &word_of(text))? {
            return Ok(false);
        }
    }
    Ok(true)
}

/// The tape of words; nothing where one is no op.
pub(crate) fn tape_of(alloc: Global, words: &str) -> Result<Option<Vec<Op>>, NoMemory> {
    let mut tape = Vec::new(alloc);
    if put_words(&mut tape, words)? {
        Ok(Some(tape))
    } else {
        Ok(None)
    }
}
