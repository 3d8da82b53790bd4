//! Units, and the declarations in them (C99, 6.7 and 6.9).

use crate::declarator::Declr;
use crate::initialiser::Init;
use crate::parts::{AsmLabel, Assert, Attr, Group, Listed, Marked, Semi};
use crate::specifier::Specs;
use crate::statement::Block;
use qual_base::TokenId;

/// `Unit = item*`.
#[derive(Drop)]
pub struct Unit {
    pub items: Vec<Item>,
}

/// `item = Function | decl | AsmDecl | Semi`.
#[derive(Drop)]
pub enum Item {
    /// `Function = ext* Specs declr Attr* Block`.
    Function {
        extensions: Vec<TokenId>,
        specs: Specs,
        declr: Box<Declr>,
        attrs: Vec<Attr>,
        body: Block,
    },
    /// `Function = ext* Specs declr Attr* Declaration* Block`, behind a list of identifiers.
    OldFunction {
        extensions: Vec<TokenId>,
        specs: Specs,
        declr: Box<Declr>,
        attrs: Vec<Attr>,
        declarations: Vec<Declaration>,
        body: Block,
    },
    Decl(Box<Decl>),
    /// `AsmDecl = asm bal ;`.
    AsmDecl {
        keyword: TokenId,
        group: Group,
        semi: TokenId,
    },
    Semi(Semi),
}

/// `decl = Declaration | Assert`.
#[cycle(tree)]
pub enum Decl {
    Declaration(Box<Declaration>),
    Assert(Assert),
}

/// `Declaration = ext* Specs [InitDeclr (, Attr* InitDeclr)*] ;`.
#[cycle(tree)]
pub struct Declaration {
    pub extensions: Vec<TokenId>,
    pub specs: Specs,
    pub declrs: Vec<Listed<InitDeclr>>,
    pub semi: TokenId,
}

/// `InitDeclr = declr [AsmLabel] Attr* [= init]`.
#[cycle(tree)]
pub struct InitDeclr {
    pub declr: Box<Declr>,
    pub label: Option<AsmLabel>,
    pub attrs: Vec<Attr>,
    pub init: Option<Marked<Init>>,
}

impl Drop for Decl {
    #[cycle(tree)]
    fn drop(self) {
        match self {
            Decl::Declaration(_part) => {}
            Decl::Assert(_part) => {}
        }
    }
}

impl Drop for Declaration {
    #[cycle(tree)]
    fn drop(self) {
        let Declaration {
            extensions: _extensions,
            specs: _specs,
            declrs: _declrs,
            semi: _semi,
        } = self;
    }
}

impl Drop for InitDeclr {
    #[cycle(tree)]
    fn drop(self) {
        let InitDeclr {
            declr: _declr,
            label: _label,
            attrs: _attrs,
            init: _init,
        } = self;
    }
}
