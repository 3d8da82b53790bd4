//! The lines at each token.

use crate::text::{Listed, put, put_number, put_place, put_token, put_type, put_value_type};
use c_words::TokenKind;
use expr_shapes::shape_values::ExprShape;
use expr_types::ExpressionTypes;
use name_tables::name_records::{Declared, Role, Use};
use qual_base::{NoMemory, Numbered, TokenId};

/// How a line names what a declaration declares; nothing for what has no line.
fn kind(role: Role) -> Option<&'static [u8]> {
    match role {
        Role::Typedef => None,
        Role::Object => Some(b"object"),
        Role::Function => Some(b"function"),
        Role::Parameter(_) => Some(b"parameter"),
        Role::Field(_, _) => Some(b"field"),
        Role::Enumerator => None,
    }
}

/// Whether a token is a name. A member without a name is declared at its `struct` or `union`.
fn is_name(it: &Listed, at: TokenId) -> bool {
    at.number() < it.tokens.len() && matches!(it.tokens.kind(at), TokenKind::Name(_))
}

/// Adds the line of a declared name.
fn put_name(it: &Listed, out: &mut Vec<u8>, declared: &Declared) -> Result<(), NoMemory> {
    let Some(kind) = kind(declared.role) else {
        return Ok(());
    };
    put(out, b"name ")?;
    put_place(it, out, declared.at.1)?;
    put(out, b" ")?;
    put_token(it, out, declared.at.1)?;
    put(out, b" ")?;
    put(out, kind)?;
    put(out, b" | ")?;
    put_type(it, out, declared.ty)?;
    put(out, b" | ")?;
    put_number(
        it.alloc,
        out,
        u64::from(it.program.types().size(declared.ty)),
    )?;
    put(out, b" ")?;
    put_place(it, out, declared.first.1)?;
    put(out, b" ")?;
    match declared.owner {
        Some(owner) => {
            put_token(it, out, owner.1)?;
            put(out, b"@")?;
            put(out, it.file.as_bytes())?;
            put(out, b":")?;
            put_place(it, out, owner.1)?;
        }
        None => put(out, b"-")?,
    }
    put(out, b"\n")
}

/// Adds the line of a name in an expression.
fn put_use(it: &Listed, out: &mut Vec<u8>, at: TokenId, first: TokenId) -> Result<(), NoMemory> {
    put(out, b"use ")?;
    put_place(it, out, at)?;
    put(out, b" ")?;
    put_token(it, out, at)?;
    put(out, b" means ")?;
    put_place(it, out, first)?;
    put(out, b"\n")
}

/// Adds the line of an expression up to its type.
fn put_shape(
    it: &Listed,
    out: &mut Vec<u8>,
    at: TokenId,
    shape: &ExprShape,
) -> Result<(), NoMemory> {
    put(out, b"expression ")?;
    put_place(it, out, at)?;
    put(out, b" ")?;
    put_token(it, out, at)?;
    match shape {
        ExprShape::Place(_) => put(out, b" place | "),
        ExprShape::Value(_) => put(out, b" value | "),
    }
}

/// Adds the line of an expression or else of a type's name, where there is one.
fn put_typed(
    it: &Listed,
    out: &mut Vec<u8>,
    types: &ExpressionTypes,
    at: TokenId,
) -> Result<(), NoMemory> {
    let Some(ty) = types.type_at(it.tokens.unit(), at) else {
        return Ok(());
    };
    match types.shape_at(it.tokens.unit(), at) {
        Some(shape) => put_shape(it, out, at, &shape)?,
        None => {
            put(out, b"typename ")?;
            put_place(it, out, at)?;
            put(out, b" | ")?;
        }
    }
    put_value_type(it, out, &ty)?;
    put(out, b"\n")
}

/// Adds the lines at a token.
fn put_lines_at(
    it: &Listed,
    out: &mut Vec<u8>,
    types: &ExpressionTypes,
    at: TokenId,
) -> Result<(), NoMemory> {
    let place = (it.tokens.unit(), at);
    if let Some(declared) = it.program.found_names().declared_at(&place) {
        if is_name(it, at) {
            put_name(it, out, &declared)?;
        }
    }
    put_typed(it, out, types, at)?;
    if let Use::Means(first) = it.program.found_names().use_at(&place) {
        put_use(it, out, at, first.1)?;
    }
    Ok(())
}

/// Adds the lines of a source.
pub fn put_lines(it: &Listed, out: &mut Vec<u8>, types: &ExpressionTypes) -> Result<(), NoMemory> {
    for number in 0..it.tokens.len() {
        put_lines_at(it, out, types, TokenId::new(number))?;
    }
    Ok(())
}
