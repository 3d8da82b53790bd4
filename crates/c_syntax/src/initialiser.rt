//! Initialisers (C99, 6.7.8).

use crate::expression::Expr;
use crate::parts::Identifier;
use qual_base::TokenId;

/// `init = assign | InitList`.
#[cycle(tree)]
pub enum Init {
    Value(Box<Expr>),
    InitList(InitList),
}

/// `InitList = { [InitItem (, InitItem)* [,]] }`.
#[cycle(tree)]
pub struct InitList {
    pub open: TokenId,
    pub items: Vec<InitItem>,
    pub comma: Option<TokenId>,
    pub close: TokenId,
}

/// `InitItem = [Desig+ =] init`: the `=` stands where there are designators; in wider C `OldDesig init` too, without it.
#[cycle(tree)]
pub struct InitItem {
    pub desigs: Vec<Desig>,
    pub equal: Option<TokenId>,
    pub init: Init,
}

/// `Desig = . Name | [ cond ]`, in wider C `[ cond ... cond ]` and `OldDesig = Name :` too.
///
/// The steps of `__builtin_offsetof`, `. Name | [ expr ]`, have this type too, and are no nodes.
#[cycle(tree)]
pub enum Desig {
    Member {
        dot: TokenId,
        name: Identifier,
    },
    Index {
        open: TokenId,
        index: Box<Expr>,
        close: TokenId,
    },
    Range {
        open: TokenId,
        first: Box<Expr>,
        dots: TokenId,
        last: Box<Expr>,
        close: TokenId,
    },
    /// `OldDesig = Name :`, which stands alone.
    Old {
        name: Identifier,
        colon: TokenId,
    },
}

impl Drop for Init {
    #[cycle(tree)]
    fn drop(self) {
        match self {
            Init::Value(_part) => {}
            Init::InitList(_part) => {}
        }
    }
}

impl Drop for InitList {
    #[cycle(tree)]
    fn drop(self) {
        let InitList {
            open: _open,
            items: _items,
            comma: _comma,
            close: _close,
        } = self;
    }
}

impl Drop for InitItem {
    #[cycle(tree)]
    fn drop(self) {
        let InitItem {
            desigs: _desigs,
            equal: _equal,
            init: _init,
        } = self;
    }
}

impl Drop for Desig {
    #[cycle(tree)]
    fn drop(self) {
        match self {
            Desig::Member {
                dot: _dot,
                name: _name,
            } => {}
            Desig::Index {
                open: _open,
                index: _index,
                close: _close,
            } => {}
            Desig::Range {
                open: _open,
                first: _first,
                dots: _dots,
                last: _last,
                close: _close,
            } => {}
            Desig::Old {
                name: _name,
                colon: _colon,
            } => {}
        }
    }
}
