//! A statement as a walk sees it, with references to its parts.

ghost use Rattle.std.specs.Prelude.{◌≡◌};
ghost use Rattle.c_tree.specs.View.{stmt_of, for_start_of};
ghost use Rattle.c_shape.specs.Statements.{start_shaped, statement_shaped};

use c_syntax::{
    Attr, BlockItem, Declaration, Expr, ForStart, Group, Identifier, Marked, Stmt, Word,
};
use qual_base::TokenId;

/// How a `for` begins.
#[derive(Clone, Copy)]
pub enum StartShape<'a> {
    Declaration(&'a Box<Declaration>),
    /// A value, if there is one, and `;`.
    Value {
        value: &'a Option<Box<Expr>>,
        semi: TokenId,
    },
}

/// The forms of statements, each with references to its parts.
#[derive(Clone, Copy)]
pub enum StatementShape<'a> {
    Block {
        open: TokenId,
        items: &'a Vec<BlockItem>,
        close: TokenId,
    },
    ExprStmt {
        value: &'a Option<Box<Expr>>,
        semi: TokenId,
    },
    AttrStmt {
        attrs: &'a Vec<Attr>,
        semi: TokenId,
    },
    Label {
        name: Identifier,
        colon: TokenId,
        attrs: &'a Vec<Attr>,
        body: &'a Box<Stmt>,
    },
    Case {
        keyword: TokenId,
        value: &'a Box<Expr>,
        colon: TokenId,
        body: &'a Box<Stmt>,
    },
    Default {
        keyword: TokenId,
        colon: TokenId,
        body: &'a Box<Stmt>,
    },
    If {
        keyword: TokenId,
        open: TokenId,
        condition: &'a Box<Expr>,
        close: TokenId,
        body: &'a Box<Stmt>,
        otherwise: &'a Option<Marked<Box<Stmt>>>,
    },
    Switch {
        keyword: TokenId,
        open: TokenId,
        value: &'a Box<Expr>,
        close: TokenId,
        body: &'a Box<Stmt>,
    },
    While {
        keyword: TokenId,
        open: TokenId,
        condition: &'a Box<Expr>,
        close: TokenId,
        body: &'a Box<Stmt>,
    },
    Do {
        keyword: TokenId,
        body: &'a Box<Stmt>,
        while_keyword: TokenId,
        open: TokenId,
        condition: &'a Box<Expr>,
        close: TokenId,
        semi: TokenId,
    },
    For {
        keyword: TokenId,
        open: TokenId,
        start: StartShape<'a>,
        condition: &'a Option<Box<Expr>>,
        semi: TokenId,
        step: &'a Option<Box<Expr>>,
        close: TokenId,
        body: &'a Box<Stmt>,
    },
    Goto {
        keyword: TokenId,
        label: Identifier,
        semi: TokenId,
    },
    Continue {
        keyword: TokenId,
        semi: TokenId,
    },
    Break {
        keyword: TokenId,
        semi: TokenId,
    },
    Return {
        keyword: TokenId,
        value: &'a Option<Box<Expr>>,
        semi: TokenId,
    },
    Asm {
        keyword: TokenId,
        words: &'a Vec<Word>,
        group: Group,
        semi: TokenId,
    },
    CaseRange {
        keyword: TokenId,
        first: &'a Box<Expr>,
        dots: TokenId,
        last: &'a Box<Expr>,
        colon: TokenId,
        body: &'a Box<Stmt>,
    },
    GotoValue {
        keyword: TokenId,
        star: TokenId,
        value: &'a Box<Expr>,
        semi: TokenId,
    },
}

/// The beginning of a `for` as a walk sees it.
fn start_shape(start: &ForStart) -> StartShape<'_>
    ensures { start_shaped result ≡ for_start_of start.now }
{
    match start {
        ForStart::Declaration(declaration) => StartShape::Declaration(declaration),
        ForStart::Value { value, semi } => StartShape::Value { value, semi: *semi },
    }
}

/// The form of a statement. Constant time.
pub fn statement_shape(s: &Stmt) -> StatementShape<'_>
    ensures { statement_shaped result ≡ stmt_of s.now }
{
    match s {
        Stmt::Block(block) => StatementShape::Block {
            open: block.open,
            items: &block.items,
            close: block.close,
        },
        Stmt::ExprStmt { value, semi } => StatementShape::ExprStmt { value, semi: *semi },
        Stmt::AttrStmt { attrs, semi } => StatementShape::AttrStmt { attrs, semi: *semi },
        Stmt::Label {
            name,
            colon,
            attrs,
            body,
        } => StatementShape::Label {
            name: *name,
            colon: *colon,
            attrs,
            body,
        },
        Stmt::Case {
            keyword,
            value,
            colon,
            body,
        } => StatementShape::Case {
            keyword: *keyword,
            value,
            colon: *colon,
            body,
        },
        Stmt::Default {
            keyword,
            colon,
            body,
        } => StatementShape::Default {
            keyword: *keyword,
            colon: *colon,
            body,
        },
        Stmt::If {
            keyword,
            open,
            condition,
            close,
            body,
            otherwise,
        } => StatementShape::If {
            keyword: *keyword,
            open: *open,
            condition,
            close: *close,
            body,
            otherwise,
        },
        Stmt::Switch {
            keyword,
            open,
            value,
            close,
            body,
        } => StatementShape::Switch {
            keyword: *keyword,
            open: *open,
            value,
            close: *close,
            body,
        },
        Stmt::While {
            keyword,
            open,
            condition,
            close,
            body,
        } => StatementShape::While {
            keyword: *keyword,
            open: *open,
            condition,
            close: *close,
            body,
        },
        Stmt::Do {
            keyword,
            body,
            while_keyword,
            open,
            condition,
            close,
            semi,
        } => StatementShape::Do {
            keyword: *keyword,
            body,
            while_keyword: *while_keyword,
            open: *open,
            condition,
            close: *close,
            semi: *semi,
        },
        Stmt::For {
            keyword,
            open,
            start,
            condition,
            semi,
            step,
            close,
            body,
        } => StatementShape::For {
            keyword: *keyword,
            open: *open,
            start: start_shape(start),
            condition,
            semi: *semi,
            step,
            close: *close,
            body,
        },
        Stmt::Goto {
            keyword,
            label,
            semi,
        } => StatementShape::Goto {
            keyword: *keyword,
            label: *label,
            semi: *semi,
        },
        Stmt::Continue { keyword, semi } => StatementShape::Continue {
            keyword: *keyword,
            semi: *semi,
        },
        Stmt::Break { keyword, semi } => StatementShape::Break {
            keyword: *keyword,
            semi: *semi,
        },
        Stmt::Return {
            keyword,
            value,
            semi,
        } => StatementShape::Return {
            keyword: *keyword,
            value,
            semi: *semi,
        },
        Stmt::Asm {
            keyword,
            words,
            group,
            semi,
        } => StatementShape::Asm {
            keyword: *keyword,
            words,
            group: *group,
            semi: *semi,
        },
        Stmt::CaseRange {
            keyword,
            first,
            dots,
            last,
            colon,
            body,
        } => StatementShape::CaseRange {
            keyword: *keyword,
            first,
            dots: *dots,
            last,
            colon: *colon,
            body,
        },
        Stmt::GotoValue {
            keyword,
            star,
            value,
            semi,
        } => StatementShape::GotoValue {
            keyword: *keyword,
            star: *star,
            value,
            semi: *semi,
        },
    }
}
