//! What readers are asked for, and what they answer.

use c_nodes::{
    SizedBlock, SizedDeclr, SizedExpr, SizedInitList, SizedSpecs, SizedStmt, SizedTypeName,
};
use c_reading::{Mode, Reach, Role};
use held_scopes::Closed;
use qual_base::TokenId;
use typedef_scope::Kind;

/// What of the first operand of an expression was read already.
#[derive(Drop)]
pub enum Begun {
    Nothing,
    /// `__extension__`, again and again.
    Extensions(Vec<TokenId>),
    /// A star.
    Star(TokenId),
}

/// A declarator, or none, and the scope of the parameters directly around its name.
#[derive(Drop)]
pub struct Declared {
    pub declr: SizedDeclr,
    pub closed: Option<Closed>,
}

/// What a reader is asked for, each with its room: the greatest height that the tree may have.
///
/// A room has 16 bits, so that a height of 32 bits, which stands still at its end, decides what
/// fits.
#[derive(Drop)]
pub enum Ask {
    Expr(Reach, Begun, u16),
    TypeName(u16),
    /// Behind words that were read already.
    Specs(Role, SizedSpecs, u16),
    /// With the kind that the name is held for, if any, and whether it may be a function's.
    Declr(Mode, Option<Kind>, bool, u16),
    InitList(u16),
    Block(u16),
    Stmt(u16),
}

/// What a reader answers.
#[derive(Drop)]
pub enum Answer {
    Expr(SizedExpr),
    TypeName(SizedTypeName),
    Specs(SizedSpecs),
    Declr(Declared),
    InitList(SizedInitList),
    Block(SizedBlock),
    Stmt(SizedStmt),
}
