//! A tape is made where there is memory.

use c_syntax::{Decl, Declaration, Declr, InitDeclr, Item, Listed, SpecWord, Specs, Unit, Word};
use c_tape::{Node, tape};
use c_words::Keyword;
use qual_base::{NameId, NoMemory, Numbered, TokenId};
use std::alloc::Global;
use std::test::Fail;
use tape_ops::{DeclrOp, Op, SpecOp};

fn at(number: u32) -> TokenId {
    TokenId::new(number)
}

fn node(op: Op) -> Node {
    Node { op }
}

/// `void x;`
fn one_declaration(alloc: Global) -> Result<Unit, NoMemory> {
    let mut words = Vec::new(alloc);
    words.push(SpecWord::Type(Word {
        token: at(0),
        keyword: Keyword::Void,
    }))?;
    let mut declrs = Vec::new(alloc);
    declrs.push(Listed {
        attrs: Vec::new(alloc),
        item: InitDeclr {
            declr: Box::new(
                alloc,
                Declr::DeclName {
                    token: at(1),
                    name: NameId::new(7),
                },
            )?,
            label: None,
            attrs: Vec::new(alloc),
            init: None,
        },
    })?;
    let it = Declaration {
        extensions: Vec::new(alloc),
        specs: Specs { words },
        declrs,
        semi: at(2),
    };
    let mut items = Vec::new(alloc);
    items.push(Item::Decl(Box::new(alloc, Decl::Declaration(Box::new(alloc, it)?))?))?;
    Ok(Unit { items })
}

#[test]
fn a_declaration_has_its_tape(rt: HostRuntime) -> Result<(), Fail> {
    let alloc = rt.alloc();
    let unit = one_declaration(alloc).expect(&rt, "memory");
    let ops = tape(alloc, &unit).expect(&rt, "memory");
    let expected = [
        node(Op::Spec(SpecOp::Void)),
        node(Op::Spec(SpecOp::SpecsEnd)),
        node(Op::Declr(DeclrOp::DeclName {
            token: at(1),
            name: NameId::new(7),
        })),
        node(Op::Declr(DeclrOp::Declare)),
        node(Op::Declr(DeclrOp::DeclarationEnd)),
    ];
    assert!(rt; ops.as_slice() == &expected[..]);
    Ok(())
}
