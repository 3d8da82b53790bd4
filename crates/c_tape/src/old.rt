//! Functions in the form of before C89: lists of identifiers, and the declarations behind them.

ghost use Rattle.std.specs.Prelude.{◌≡◌, ◌++◌, List, map, OnOk, if◌then◌else◌};
ghost use Rattle.c_tree.specs.Lists.{init_declrs_from};
ghost use Rattle.c_tape.specs.Parts.{old_declaration_of_parts};
ghost use Rattle.c_tree.specs.Unit.{spec_words_from};
ghost use Rattle.c_tree.specs.View.{declaration_of, declr_of};
ghost use Rattle.c_tape.specs.Tape.{identifiers_tape, old_contents, old_declaration_tape, old_declarations_tape, old_declrs_tape};

use crate::declarator::{declarator, expand_contents, parameter_list, some_size, specifiers};
use crate::initialiser::some_init;
use crate::testing::{are_auto, is_tag_alone};
use crate::todo::Todo;
use c_shape::{DeclaratorShape, declarator_shape};
use c_syntax::{Declaration, Declr, Identifier, InitDeclr, Listed, SpecWord};
use qual_base::{NoMemory, TokenId};
use tape_ops::DeclrOp;

/// Identifiers one after the other.
#[tactic(auto, using(crate::proofs::TodoLemmas::list_assoc))]
pub fn expand_identifiers<'a>(names: &'a [Identifier], todo: &mut Todo<'a>) -> Result<(), NoMemory>
    ensures { OnOk result (todo.new ≡ identifiers_tape names.now ++ todo.old) }
{
    match names.split_first() {
        None => Ok(()),
        Some((name, rest)) => {
            todo.identifiers(rest)?;
            todo.declr_op(DeclrOp::Identifier {
                token: name.token,
                name: name.name,
            })
        }
    }
}

/// Declarators of a declaration of parameters one after the other.
#[tactic(auto, using(crate::proofs::TodoLemmas::list_assoc))]
pub fn expand_old_declrs<'a>(
    declrs: &'a [Listed<InitDeclr>],
    todo: &mut Todo<'a>,
) -> Result<(), NoMemory>
    ensures { OnOk result (todo.new ≡ old_declrs_tape (init_declrs_from declrs.now) ++ todo.old) }
{
    match declrs.split_first() {
        None => Ok(()),
        Some((it, rest)) => {
            todo.old_declrs(rest)?;
            some_init(&it.item.init, todo)?;
            todo.declr_op(DeclrOp::OldParam)?;
            declarator(&it.item.declr, false, todo)
        }
    }
}

/// The specifiers and declarators of a declaration of parameters.
#[tactic(auto, using(crate::proofs::TodoLemmas::list_assoc))]
fn old_declaration_parts<'a>(
    words: &'a Vec<SpecWord>,
    declrs: &'a [Listed<InitDeclr>],
    semi: &'a TokenId,
    todo: &mut Todo<'a>,
) -> Result<(), NoMemory>
    ensures { OnOk result (todo.new ≡ old_declaration_of_parts semi.now
        (spec_words_from words.now.items) (init_declrs_from declrs.now) ++ todo.old) }
{
    let is_alone = is_tag_alone(words.as_slice(), declrs);
    todo.declr_op(DeclrOp::DeclarationEnd)?;
    if are_auto(words.as_slice(), declrs) {
        todo.auto_declrs(declrs, semi)?;
    } else {
        todo.old_declrs(declrs)?;
    }
    specifiers(words, is_alone, todo)
}

/// A declaration of parameters.
fn old_declaration<'a>(it: &'a Declaration, todo: &mut Todo<'a>) -> Result<(), NoMemory>
    ensures { OnOk result (todo.new ≡ old_declaration_tape (declaration_of it.now) ++ todo.old) }
{
    old_declaration_parts(&it.specs.words, it.declrs.as_slice(), &it.semi, todo)
}

/// Declarations of parameters one after the other.
#[tactic(auto, using(crate::proofs::TodoLemmas::list_assoc))]
pub fn expand_old_declarations<'a>(
    declarations: &'a [Declaration],
    todo: &mut Todo<'a>,
) -> Result<(), NoMemory>
    ensures { OnOk result (todo.new
        ≡ old_declarations_tape (map declaration_of declarations.now) ++ todo.old) }
{
    match declarations.split_first() {
        None => Ok(()),
        Some((it, rest)) => {
            todo.old_declarations(rest)?;
            old_declaration(it, todo)
        }
    }
}

/// The name, the identifiers with their declarations, the parameters and the sizes of a declarator.
#[tactic(auto, using(crate::proofs::TodoLemmas::list_assoc))]
pub fn expand_old_contents<'a>(
    d: &'a Declr,
    declarations: &'a [Declaration],
    todo: &mut Todo<'a>,
) -> Result<(), NoMemory>
    ensures { OnOk result (todo.new
        ≡ old_contents (map declaration_of declarations.now) (declr_of d.now) ++ todo.old) }
{
    match declarator_shape(d) {
        DeclaratorShape::Identifiers { inner, names, .. } => {
            todo.declr_op(DeclrOp::ParamsEnd)?;
            todo.old_declarations(declarations)?;
            todo.identifiers(names.as_slice())?;
            todo.declr_op(DeclrOp::ParamsBegin { is_own: true })?;
            todo.contents(inner, false)
        }
        DeclaratorShape::Pointer { inner, .. } => todo.old_contents(inner, declarations),
        DeclaratorShape::DeclParen { inner, .. } => todo.old_contents(inner, declarations),
        DeclaratorShape::Array { inner, size, .. } => {
            some_size(size, todo)?;
            todo.old_contents(inner, declarations)
        }
        DeclaratorShape::Params { inner, params, .. } => {
            parameter_list(params, false, todo)?;
            todo.old_contents(inner, declarations)
        }
        DeclaratorShape::DeclName { .. }
        | DeclaratorShape::BaseName { .. }
        | DeclaratorShape::AbsPointer { .. }
        | DeclaratorShape::AbsParen { .. }
        | DeclaratorShape::AbsArray { .. }
        | DeclaratorShape::AbsParams { .. } => expand_contents(d, false, todo),
    }
}
