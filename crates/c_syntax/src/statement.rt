//! Statements (C99, 6.8).

use crate::declaration::{Decl, Declaration};
use crate::expression::Expr;
use crate::parts::{Attr, Group, Identifier, Marked, Word};
use qual_base::TokenId;

/// `Block = { (decl | stmt)* }`.
#[cycle(tree)]
pub struct Block {
    pub open: TokenId,
    pub items: Vec<BlockItem>,
    pub close: TokenId,
}

/// `decl | stmt`, in wider C a `LabelDecl` too, before all others of its block.
#[cycle(tree)]
pub enum BlockItem {
    Decl(Box<Decl>),
    Stmt(Box<Stmt>),
    /// `LabelDecl = __label__ Name (, Name)* ;`.
    Labels {
        keyword: TokenId,
        names: Vec<Identifier>,
        semi: TokenId,
    },
}

/// The nodes of `stmt`.
#[cycle(tree)]
pub enum Stmt {
    Block(Block),
    /// `ExprStmt = [expr] ;`.
    ExprStmt {
        value: Option<Box<Expr>>,
        semi: TokenId,
    },
    /// `AttrStmt = Attr+ ;`.
    AttrStmt {
        attrs: Vec<Attr>,
        semi: TokenId,
    },
    /// `Label = Name : Attr* stmt`.
    Label {
        name: Identifier,
        colon: TokenId,
        attrs: Vec<Attr>,
        body: Box<Stmt>,
    },
    /// `Case = case cond : stmt`.
    Case {
        keyword: TokenId,
        value: Box<Expr>,
        colon: TokenId,
        body: Box<Stmt>,
    },
    /// `Default = default : stmt`.
    Default {
        keyword: TokenId,
        colon: TokenId,
        body: Box<Stmt>,
    },
    /// `If = if ( expr ) stmt [else stmt]`.
    If {
        keyword: TokenId,
        open: TokenId,
        condition: Box<Expr>,
        close: TokenId,
        body: Box<Stmt>,
        otherwise: Option<Marked<Box<Stmt>>>,
    },
    /// `Switch = switch ( expr ) stmt`.
    Switch {
        keyword: TokenId,
        open: TokenId,
        value: Box<Expr>,
        close: TokenId,
        body: Box<Stmt>,
    },
    /// `While = while ( expr ) stmt`.
    While {
        keyword: TokenId,
        open: TokenId,
        condition: Box<Expr>,
        close: TokenId,
        body: Box<Stmt>,
    },
    /// `Do = do stmt while ( expr ) ;`.
    Do {
        keyword: TokenId,
        body: Box<Stmt>,
        while_keyword: TokenId,
        open: TokenId,
        condition: Box<Expr>,
        close: TokenId,
        semi: TokenId,
    },
    /// `For = for ( (Declaration | [expr] ;) [expr] ; [expr] ) stmt`.
    For {
        keyword: TokenId,
        open: TokenId,
        start: ForStart,
        condition: Option<Box<Expr>>,
        semi: TokenId,
        step: Option<Box<Expr>>,
        close: TokenId,
        body: Box<Stmt>,
    },
    /// `Goto = goto Name ;`.
    Goto {
        keyword: TokenId,
        label: Identifier,
        semi: TokenId,
    },
    /// `Continue = continue ;`.
    Continue {
        keyword: TokenId,
        semi: TokenId,
    },
    /// `Break = break ;`.
    Break {
        keyword: TokenId,
        semi: TokenId,
    },
    /// `Return = return [expr] ;`.
    Return {
        keyword: TokenId,
        value: Option<Box<Expr>>,
        semi: TokenId,
    },
    /// `Asm = asm (volatile | goto | inline)* bal ;`.
    Asm {
        keyword: TokenId,
        words: Vec<Word>,
        group: Group,
        semi: TokenId,
    },
    /// `Case = case cond ... cond : stmt`, a GNU form.
    CaseRange {
        keyword: TokenId,
        first: Box<Expr>,
        dots: TokenId,
        last: Box<Expr>,
        colon: TokenId,
        body: Box<Stmt>,
    },
    /// `GotoValue = goto * expr ;`, a GNU form.
    GotoValue {
        keyword: TokenId,
        star: TokenId,
        value: Box<Expr>,
        semi: TokenId,
    },
}

/// How a `for` begins: `Declaration | [expr] ;`.
#[cycle(tree)]
pub enum ForStart {
    Declaration(Box<Declaration>),
    Value {
        value: Option<Box<Expr>>,
        semi: TokenId,
    },
}

impl Drop for Block {
    #[cycle(tree)]
    fn drop(self) {
        let Block {
            open: _open,
            items: _items,
            close: _close,
        } = self;
    }
}

impl Drop for BlockItem {
    #[cycle(tree)]
    fn drop(self) {
        match self {
            BlockItem::Decl(_part) => {}
            BlockItem::Stmt(_part) => {}
            BlockItem::Labels {
                keyword: _keyword,
                names: _names,
                semi: _semi,
            } => {}
        }
    }
}

impl Drop for Stmt {
    #[cycle(tree)]
    fn drop(self) {
        match self {
            Stmt::Block(_part) => {}
            Stmt::ExprStmt {
                value: _value,
                semi: _semi,
            } => {}
            Stmt::AttrStmt {
                attrs: _attrs,
                semi: _semi,
            } => {}
            Stmt::Label {
                name: _name,
                colon: _colon,
                attrs: _attrs,
                body: _body,
            } => {}
            Stmt::Case {
                keyword: _keyword,
                value: _value,
                colon: _colon,
                body: _body,
            } => {}
            Stmt::Default {
                keyword: _keyword,
                colon: _colon,
                body: _body,
            } => {}
            Stmt::If {
                keyword: _keyword,
                open: _open,
                condition: _condition,
                close: _close,
                body: _body,
                otherwise: _otherwise,
            } => {}
            Stmt::Switch {
                keyword: _keyword,
                open: _open,
                value: _value,
                close: _close,
                body: _body,
            } => {}
            Stmt::While {
                keyword: _keyword,
                open: _open,
                condition: _condition,
                close: _close,
                body: _body,
            } => {}
            Stmt::Do {
                keyword: _keyword,
                body: _body,
                while_keyword: _while_keyword,
                open: _open,
                condition: _condition,
                close: _close,
                semi: _semi,
            } => {}
            Stmt::For {
                keyword: _keyword,
                open: _open,
                start: _start,
                condition: _condition,
                semi: _semi,
                step: _step,
                close: _close,
                body: _body,
            } => {}
            Stmt::Goto {
                keyword: _keyword,
                label: _label,
                semi: _semi,
            } => {}
            Stmt::Continue {
                keyword: _keyword,
                semi: _semi,
            } => {}
            Stmt::Break {
                keyword: _keyword,
                semi: _semi,
            } => {}
            Stmt::Return {
                keyword: _keyword,
                value: _value,
                semi: _semi,
            } => {}
            Stmt::Asm {
                keyword: _keyword,
                words: _words,
                group: _group,
                semi: _semi,
            } => {}
            Stmt::CaseRange {
                keyword: _keyword,
                first: _first,
                dots: _dots,
                last: _last,
                colon: _colon,
                body: _body,
            } => {}
            Stmt::GotoValue {
                keyword: _keyword,
                star: _star,
                value: _value,
                semi: _semi,
            } => {}
        }
    }
}

impl Drop for ForStart {
    #[cycle(tree)]
    fn drop(self) {
        match self {
            ForStart::Declaration(_part) => {}
            ForStart::Value {
                value: _value,
                semi: _semi,
            } => {}
        }
    }
}
