//! How places and types are written.

use c_lexer::Tokens;
use c_types::Program;
use expr_shapes::shape_values::ValueType;
use name_tables::name_records::Aggregate;
use qual_base::{NoMemory, Numbered, StructId, TokenId, TypeId, UnitNo};
use std::alloc::Global;
use tape_ops::TagKind;
use type_table::Shape;

/// A source that is listed: the name of its file, its tokens, and what it resolves to.
#[derive(Clone, Copy, Drop)]
pub struct Listed<'a> {
    pub alloc: Global,
    pub file: &'a str,
    pub tokens: &'a Tokens<'a>,
    pub program: &'a Program,
}

/// Adds a text.
pub fn put(out: &mut Vec<u8>, text: &[u8]) -> Result<(), NoMemory> {
    match out.extend_from_slice(text) {
        Ok(()) => Ok(()),
        Err(_) => Err(NoMemory),
    }
}

/// Adds a number.
pub fn put_number(alloc: Global, out: &mut Vec<u8>, number: u64) -> Result<(), NoMemory> {
    match format!(in alloc; "{number}") {
        Ok(digits) => put(out, digits.as_bytes()),
        Err(_) => Err(NoMemory),
    }
}

/// Adds the place of a token.
pub fn put_place(it: &Listed, out: &mut Vec<u8>, at: TokenId) -> Result<(), NoMemory> {
    if at.number() < it.tokens.len() {
        let spot = it.tokens.place_of(at);
        put_number(it.alloc, out, spot.line)?;
        put(out, b":")?;
        put_number(it.alloc, out, spot.column)?;
    }
    Ok(())
}

/// Adds the bytes that spell a token.
pub fn put_token(it: &Listed, out: &mut Vec<u8>, at: TokenId) -> Result<(), NoMemory> {
    if at.number() < it.tokens.len() {
        put(out, it.tokens.bytes(at))?;
    }
    Ok(())
}

/// Adds annotation words with their places.
fn put_words(it: &Listed, out: &mut Vec<u8>, words: &[(UnitNo, TokenId)]) -> Result<(), NoMemory> {
    if words.is_empty() {
        return Ok(());
    }
    put(out, b"[")?;
    let mut is_first = true;
    for word in words {
        if !is_first {
            put(out, b", ")?;
        }
        is_first = false;
        put_token(it, out, word.1)?;
        put(out, b" ")?;
        put_place(it, out, word.1)?;
    }
    put(out, b"]")
}

/// Adds a struct or a union, by the place where it was first declared.
fn put_struct(
    it: &Listed,
    out: &mut Vec<u8>,
    all: &[Aggregate],
    number: StructId,
) -> Result<(), NoMemory> {
    match all.get(number.number() as usize) {
        Some(found) => {
            match found.kind {
                TagKind::Struct => put(out, b"S")?,
                TagKind::Union => put(out, b"U")?,
                TagKind::Enum => put(out, b"E")?,
            }
            put_place(it, out, found.at.1)
        }
        None => Ok(()),
    }
}

/// What is still to be written of a type.
#[derive(Clone, Copy, Drop)]
enum Piece {
    Type(TypeId),
    /// The ellipsis of a function, with its words.
    Ellipsis(TypeId),
    Open,
    Comma,
    Gives,
}

/// Has these pieces be written next, a function's parameters in their order.
fn await_params(pending: &mut Vec<Piece>, params: &[TypeId]) -> Result<(), NoMemory> {
    for number in 0..params.len() {
        let at = params.len() - 1 - number;
        pending.push(Piece::Type(params[at]))?;
        if at != 0 {
            pending.push(Piece::Comma)?;
        }
    }
    Ok(())
}

/// Has a function be written next.
fn await_function(
    pending: &mut Vec<Piece>,
    ty: TypeId,
    params: &[TypeId],
    gives: TypeId,
    ellipsis: bool,
) -> Result<(), NoMemory> {
    pending.push(Piece::Type(gives))?;
    pending.push(Piece::Gives)?;
    if ellipsis {
        pending.push(Piece::Ellipsis(ty))?;
        if !params.is_empty() {
            pending.push(Piece::Comma)?;
        }
    }
    await_params(pending, params)?;
    pending.push(Piece::Open)?;
    Ok(())
}

/// Adds a node of a type, and has its parts be written next.
fn put_node(
    it: &Listed,
    out: &mut Vec<u8>,
    pending: &mut Vec<Piece>,
    ty: TypeId,
) -> Result<(), NoMemory> {
    let types = it.program.types();
    let words = types.words(ty);
    match types.shape(ty) {
        Shape::Base => {
            put_words(it, out, words)?;
            put(out, b"B")
        }
        Shape::Void => {
            put_words(it, out, words)?;
            put(out, b"V")
        }
        Shape::Ref(inside) => {
            put(out, b"*")?;
            put_words(it, out, words)?;
            pending.push(Piece::Type(*inside))?;
            Ok(())
        }
        Shape::Fun {
            params,
            result: gives,
            ellipsis,
        } => {
            put_words(it, out, words)?;
            await_function(pending, ty, params.as_slice(), *gives, *ellipsis)
        }
        Shape::Struct(number) => {
            put_words(it, out, words)?;
            put_struct(it, out, it.program.names().aggregates(), *number)
        }
    }
}

/// Adds a piece, or a node and has its parts be written next.
fn put_piece(
    it: &Listed,
    out: &mut Vec<u8>,
    pending: &mut Vec<Piece>,
    piece: &Piece,
) -> Result<(), NoMemory> {
    match piece {
        Piece::Type(ty) => put_node(it, out, pending, *ty),
        Piece::Open => put(out, b"("),
        Piece::Comma => put(out, b", "),
        Piece::Gives => put(out, b")->"),
        Piece::Ellipsis(ty) => {
            put(out, b"...")?;
            put_words(it, out, it.program.types().ellipsis_words(*ty))
        }
    }
}

/// Adds what is pending.
fn put_pending(it: &Listed, out: &mut Vec<u8>, pending: &mut Vec<Piece>) -> Result<(), NoMemory> {
    for _ in 0..u64::MAX {
        match pending.pop() {
            Some(piece) => put_piece(it, out, pending, &piece)?,
            None => return Ok(()),
        }
    }
    Ok(())
}

/// Adds a type.
pub fn put_type(it: &Listed, out: &mut Vec<u8>, ty: TypeId) -> Result<(), NoMemory> {
    let mut pending = Vec::new(it.alloc);
    pending.push(Piece::Type(ty))?;
    put_pending(it, out, &mut pending)
}

/// Adds the type of a value.
pub fn put_value_type(it: &Listed, out: &mut Vec<u8>, ty: &ValueType) -> Result<(), NoMemory> {
    match ty {
        ValueType::Of(ty) => put_type(it, out, *ty),
        ValueType::PointerTo(ty) => {
            put(out, b"*")?;
            put_type(it, out, *ty)
        }
    }
}
