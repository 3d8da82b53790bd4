//! Declarations.

ghost use Rattle.std.specs.Prelude.{◌≡◌, ◌++◌, OnOk};
ghost use Rattle.c_tree.specs.View.{expr_of, declaration_of, decl_of};
ghost use Rattle.c_tree.specs.Ends.{first_token, last_token};
ghost use Rattle.c_tree.specs.Lists.{init_declrs_from, some_init_from};
ghost use Rattle.c_tape.specs.Tape.{init, declr, auto_declrs_tape, auto_init_tape, init_declrs_tape, declaration_tape, decl_tape};
ghost use Rattle.c_tape.specs.Parts.{boxed_tape, declaration_of_parts};
ghost use Rattle.tape_ops.specs.declared.initialiser.InitOp.TheVariants as inits;
ghost use Rattle.tape_ops.specs.declared.declarator.DeclrOp.TheVariants as declrs_ops;
ghost use Rattle.c_tree.specs.Unit.{spec_words_from};

use crate::declarator::{declarator, specifiers};
use crate::initialiser::some_init;
use crate::testing::{are_auto, is_tag_alone};
use crate::todo::Todo;
use c_syntax::{Decl, Declaration, Expr, Init, InitDeclr, Listed, Marked, SpecWord};
use c_tree::{first, last};
use qual_base::{NoMemory, TokenId};
use tape_ops::{DeclrOp, InitOp};

/// Declarators of a declaration one after the other.
#[tactic(auto, using(crate::proofs::TodoLemmas::list_assoc))]
pub fn expand_init_declrs<'a>(
    declrs: &'a [Listed<InitDeclr>],
    todo: &mut Todo<'a>,
) -> Result<(), NoMemory>
    ensures { OnOk result (todo.new ≡ init_declrs_tape (init_declrs_from declrs.now) ++ todo.old) }
{
    match declrs.split_first() {
        None => Ok(()),
        Some((it, rest)) => {
            todo.init_declrs(rest)?;
            some_init(&it.item.init, todo)?;
            todo.declr_op(DeclrOp::Declare)?;
            declarator(&it.item.declr, false, todo)
        }
    }
}

/// The expression that gives its type to the name before it.
#[tactic(auto, using(crate::proofs::TodoLemmas::list_assoc))]
fn auto_value<'a>(e: &'a Box<Expr>, semi: &'a TokenId, todo: &mut Todo<'a>) -> Result<(), NoMemory>
    ensures { OnOk result (todo.new ≡ (declr declrs_ops.AutoBegin ++ boxed_tape e.now
        ++ declr (declrs_ops.AutoEnd semi.now)
        ++ init (inits.Value (first_token (expr_of e.now.value)) (last_token (expr_of e.now.value))))
        ++ todo.old) }
{
    todo.init_op(InitOp::Value {
        first: first(e),
        last: last(e),
    })?;
    todo.declr_op(DeclrOp::AutoEnd { token: *semi })?;
    todo.expr(e)?;
    todo.declr_op(DeclrOp::AutoBegin)
}

/// The initialiser that gives its type to the name before it.
fn auto_init<'a>(
    init: &'a Option<Marked<Init>>,
    semi: &'a TokenId,
    todo: &mut Todo<'a>,
) -> Result<(), NoMemory>
    ensures { OnOk result
        (todo.new ≡ auto_init_tape semi.now (some_init_from init.now) ++ todo.old) }
{
    let Some(init) = init else {
        return Ok(());
    };
    match &init.part {
        Init::Value(e) => auto_value(e, semi, todo),
        Init::InitList(_) => Ok(()),
    }
}

/// Declarators of a declaration with `__auto_type` one after the other.
#[tactic(auto, using(crate::proofs::TodoLemmas::list_assoc))]
pub fn expand_auto_declrs<'a>(
    declrs: &'a [Listed<InitDeclr>],
    semi: &'a TokenId,
    todo: &mut Todo<'a>,
) -> Result<(), NoMemory>
    ensures { OnOk result
        (todo.new ≡ auto_declrs_tape semi.now (init_declrs_from declrs.now) ++ todo.old) }
{
    match declrs.split_first() {
        None => Ok(()),
        Some((it, rest)) => {
            todo.auto_declrs(rest, semi)?;
            auto_init(&it.item.init, semi, todo)?;
            todo.contents(&it.item.declr, false)
        }
    }
}

/// The specifiers and declarators of a declaration.
#[tactic(auto, using(crate::proofs::TodoLemmas::list_assoc))]
fn declaration_parts<'a>(
    words: &'a Vec<SpecWord>,
    declrs: &'a [Listed<InitDeclr>],
    semi: &'a TokenId,
    todo: &mut Todo<'a>,
) -> Result<(), NoMemory>
    ensures { OnOk result (todo.new ≡ declaration_of_parts semi.now (spec_words_from words.now.items)
        (init_declrs_from declrs.now) ++ todo.old) }
{
    let is_alone = is_tag_alone(words.as_slice(), declrs);
    todo.declr_op(DeclrOp::DeclarationEnd)?;
    if are_auto(words.as_slice(), declrs) {
        todo.auto_declrs(declrs, semi)?;
    } else {
        todo.init_declrs(declrs)?;
    }
    specifiers(words, is_alone, todo)
}

/// A declaration.
pub fn declaration<'a>(it: &'a Declaration, todo: &mut Todo<'a>) -> Result<(), NoMemory>
    ensures { OnOk result (todo.new ≡ declaration_tape (declaration_of it.now) ++ todo.old) }
{
    declaration_parts(&it.specs.words, it.declrs.as_slice(), &it.semi, todo)
}

/// A declaration or an assertion.
pub fn decl<'a>(it: &'a Decl, todo: &mut Todo<'a>) -> Result<(), NoMemory>
    ensures { OnOk result (todo.new ≡ decl_tape (decl_of it.now) ++ todo.old) }
{
    match it {
        Decl::Declaration(it) => declaration(it, todo),
        Decl::Assert(_) => Ok(()),
    }
}
