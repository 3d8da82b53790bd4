//! What a token begins as the first of specifiers, of a statement and of an initialiser.

ghost use Rattle.std.specs.Prelude.{◌≡◌};
ghost use Rattle.c_reading.specs.Initialising as inits;
ghost use Rattle.c_reading.specs.Specifying as specs;
ghost use Rattle.c_reading.specs.Stating as stmts;

use crate::openings::begins_expr;
use c_reading::{Role, SpecStart, StmtStart};
use c_words::{Keyword, Punct, TokenKind};
use held_scopes::TypedefScopes;

/// Which word of specifiers a keyword begins (C99, 6.7).
fn keyword_start(keyword: Keyword) -> SpecStart
    ensures { result ≡ specs.keyword_start keyword }
{
    match keyword {
        Keyword::Typedef => SpecStart::Storage(Keyword::Typedef),
        Keyword::Extern => SpecStart::Storage(Keyword::Extern),
        Keyword::Static => SpecStart::Storage(Keyword::Static),
        Keyword::Auto => SpecStart::Storage(Keyword::Auto),
        Keyword::Register => SpecStart::Storage(Keyword::Register),
        Keyword::Thread => SpecStart::Thread,
        Keyword::Inline => SpecStart::Inline,
        Keyword::Noreturn => SpecStart::Noreturn,
        Keyword::Const => SpecStart::Word(Keyword::Const),
        Keyword::Volatile => SpecStart::Word(Keyword::Volatile),
        Keyword::Restrict => SpecStart::Word(Keyword::Restrict),
        Keyword::Atomic => SpecStart::Word(Keyword::Atomic),
        Keyword::Seg => SpecStart::Word(Keyword::Seg),
        Keyword::AtomicType => SpecStart::Atomic,
        Keyword::Typeof => SpecStart::Typeof,
        Keyword::Alignas => SpecStart::Align,
        Keyword::AutoType => SpecStart::Auto,
        Keyword::AnyComplex => SpecStart::Basic(Keyword::AnyComplex),
        Keyword::Void => SpecStart::Basic(Keyword::Void),
        Keyword::Char => SpecStart::Basic(Keyword::Char),
        Keyword::Short => SpecStart::Basic(Keyword::Short),
        Keyword::Int => SpecStart::Basic(Keyword::Int),
        Keyword::Long => SpecStart::Basic(Keyword::Long),
        Keyword::Float => SpecStart::Basic(Keyword::Float),
        Keyword::Double => SpecStart::Basic(Keyword::Double),
        Keyword::Signed => SpecStart::Basic(Keyword::Signed),
        Keyword::Unsigned => SpecStart::Basic(Keyword::Unsigned),
        Keyword::Bool => SpecStart::Basic(Keyword::Bool),
        Keyword::Complex => SpecStart::Basic(Keyword::Complex),
        Keyword::BaseWord => SpecStart::Basic(Keyword::BaseWord),
        Keyword::Int128 => SpecStart::Basic(Keyword::Int128),
        Keyword::Struct => SpecStart::Struct(Keyword::Struct),
        Keyword::Union => SpecStart::Struct(Keyword::Union),
        Keyword::Enum => SpecStart::Enum,
        Keyword::Attribute => SpecStart::Attribute,
        _ => SpecStart::Nothing,
    }
}

/// Which word of specifiers a token of a kind begins, where each name is taken for a typedef name.
fn kind_start(kind: TokenKind) -> SpecStart
    ensures { result ≡ specs.kind_start kind }
{
    match kind {
        TokenKind::Keyword(keyword) => keyword_start(keyword),
        TokenKind::Qual(_, _) => SpecStart::Element,
        TokenKind::Index => SpecStart::Index,
        TokenKind::Name(name) => SpecStart::Name(name),
        _ => SpecStart::Nothing,
    }
}

/// A name begins a word where it is a typedef name and no type stands before it.
fn typed_start(scopes: &TypedefScopes, typed: bool, start: SpecStart) -> SpecStart
    ensures { result ≡ specs.typed_start scopes.now typed start }
{
    match start {
        SpecStart::Name(name) => {
            if scopes.names_type(name) && !typed {
                SpecStart::Name(name)
            } else {
                SpecStart::Nothing
            }
        }
        other => other,
    }
}

/// Which word a token of a kind begins behind words, among which a type stands or not.
pub fn start_at(scopes: &TypedefScopes, typed: bool, kind: TokenKind) -> SpecStart
    ensures { result ≡ specs.start_at scopes.now typed kind }
{
    typed_start(scopes, typed, kind_start(kind))
}

/// Whether a word of specifiers begins so.
pub fn is_start(start: SpecStart) -> bool
    ensures { result ≡ specs.is_start start }
{
    match start {
        SpecStart::Nothing => false,
        _ => true,
    }
}

/// Whether specifiers begin with a token of a kind.
pub fn begins_specs(scopes: &TypedefScopes, kind: TokenKind) -> bool
    ensures { result ≡ specs.begins_specs scopes.now kind }
{
    is_start(start_at(scopes, false, kind))
}

/// Whether the name of a type cannot have a word that begins so.
fn is_declaring(start: &SpecStart) -> bool
    ensures { result ≡ specs.is_declaring start.now }
{
    match start {
        SpecStart::Storage(_) | SpecStart::Thread => true,
        SpecStart::Inline | SpecStart::Noreturn => true,
        SpecStart::Align | SpecStart::Auto => true,
        _ => false,
    }
}

/// Whether a word that begins so is `__auto_type`.
fn is_auto_start(start: &SpecStart) -> bool
    ensures { result ≡ specs.is_auto_start start.now }
{
    match start {
        SpecStart::Auto => true,
        _ => false,
    }
}

/// Whether a word that begins so may stand in a role.
pub fn may_stand(role: Role, start: &SpecStart) -> bool
    ensures { result ≡ specs.may_stand role start.now }
{
    match role {
        Role::Declaring => true,
        Role::Typed => !is_auto_start(start),
        Role::Naming => !is_declaring(start),
    }
}

/// Whether specifiers of a role begin with a token of a kind.
pub fn begins_role(role: Role, scopes: &TypedefScopes, kind: TokenKind) -> bool
    ensures { result ≡ specs.begins_role role scopes.now kind }
{
    let start = start_at(scopes, false, kind);
    is_start(start) && may_stand(role, &start)
}

/// What a statement begins with, of which the first token is a keyword (C99, 6.8).
fn keyword_stmt(keyword: Keyword) -> StmtStart
    ensures { result ≡ stmts.keyword_stmt keyword }
{
    match keyword {
        Keyword::Attribute => StmtStart::Attribute,
        Keyword::Case => StmtStart::Case,
        Keyword::Default => StmtStart::Default,
        Keyword::If => StmtStart::If,
        Keyword::Switch => StmtStart::Switch,
        Keyword::While => StmtStart::While,
        Keyword::Do => StmtStart::Do,
        Keyword::For => StmtStart::For,
        Keyword::Goto => StmtStart::Goto,
        Keyword::Continue => StmtStart::Continue,
        Keyword::Break => StmtStart::Break,
        Keyword::Return => StmtStart::Return,
        Keyword::Asm => StmtStart::Asm,
        _ => StmtStart::Value,
    }
}

/// What a statement begins with, of which the first token is no keyword and no name.
fn punct_stmt(kind: TokenKind) -> StmtStart
    ensures { result ≡ stmts.punct_stmt kind }
{
    match kind {
        TokenKind::Punct(Punct::OpenBrace) => StmtStart::Block,
        TokenKind::Punct(Punct::Semicolon) => StmtStart::Semicolon,
        _ => StmtStart::Value,
    }
}

/// What a statement begins with, of which the first token has a kind.
pub fn stmt_start(kind: TokenKind) -> StmtStart
    ensures { result ≡ stmts.stmt_start kind }
{
    match kind {
        TokenKind::Keyword(keyword) => keyword_stmt(keyword),
        TokenKind::Name(name) => StmtStart::Name(name),
        other => punct_stmt(other),
    }
}

/// Whether an initialiser begins with a token of a kind (C99, 6.7.8).
pub fn begins_init(scopes: &TypedefScopes, kind: TokenKind) -> bool
    ensures { result ≡ inits.begins_init scopes.now kind }
{
    match kind {
        TokenKind::Punct(Punct::OpenBrace) => true,
        other => begins_expr(scopes, other),
    }
}
