//! Declarators, parameters and what their types are made of.

ghost use Rattle.std.specs.Prelude.{◌≡◌, ◌++◌, [], OnOk, option_map, true, false, if◌then◌else◌};
ghost use Rattle.c_tree.specs.View.{declr_of, dots_of};
ghost use Rattle.c_tree.specs.Lists.{some_declr_from, some_size_from, params_from};
ghost use Rattle.c_tree.specs.Unit.{spec_words_from};
ghost use Rattle.c_tape.specs.Tape.{specs_with, words_tape, contents, some_contents, some_declr_tape, some_size_tape, params_with, params_tape, pieces, some_pieces, dots_tape, pointer_words_tape, array_words_tape, quals_tape};
ghost use Rattle.c_tape.specs.Tests.{says_none};

use crate::testing::{is_name_alone, is_void_list, takes_more};
use crate::todo::Todo;
use c_shape::{DeclaratorShape, declarator_shape};
use c_syntax::{ArraySize, ArrayWord, Declr, Ellipsis, Param, PointerWord, Qual, SpecWord};
use c_tree::token_of_qual;
use qual_base::NoMemory;
use tape_ops::{DeclrOp, SpecOp};

/// Specifiers with these words.
#[tactic(auto, using(crate::proofs::TodoLemmas::list_assoc))]
pub fn specifiers<'a>(
    words: &'a Vec<SpecWord>,
    is_alone: bool,
    todo: &mut Todo<'a>,
) -> Result<(), NoMemory>
    ensures { OnOk result
        (todo.new ≡ specs_with (words_tape is_alone (spec_words_from words.now.items))
        ++ todo.old) }
{
    todo.spec_op(SpecOp::SpecsEnd)?;
    todo.words(words.as_slice(), is_alone)
}

/// A declarator of a name, and whether it is of a function with a body: what is in it, and then what its type is made of.
#[tactic(auto, using(crate::proofs::TodoLemmas::list_assoc))]
pub fn declarator<'a>(d: &'a Box<Declr>, is_own: bool, todo: &mut Todo<'a>) -> Result<(), NoMemory>
    ensures { OnOk result (todo.new ≡ contents is_own (declr_of d.now.value) ++ pieces
        (declr_of d.now.value) ++ todo.old) }
{
    todo.pieces(d)?;
    todo.contents(d, is_own)
}

/// The declarator of a parameter or of a type name, if there is one.
#[tactic(auto, using(crate::proofs::TodoLemmas::list_assoc))]
pub fn some_declr<'a>(d: &'a Option<Box<Declr>>, todo: &mut Todo<'a>) -> Result<(), NoMemory>
    ensures { OnOk result (todo.new ≡ some_declr_tape (some_declr_from d.now) ++ todo.old) }
{
    match d {
        Some(d) => declarator(d, false, todo),
        None => Ok(()),
    }
}

fn contents_of_some<'a>(d: &'a Option<Box<Declr>>, todo: &mut Todo<'a>) -> Result<(), NoMemory>
    ensures { OnOk result (todo.new ≡ some_contents (some_declr_from d.now) ++ todo.old) }
{
    match d {
        Some(d) => todo.contents(d, false),
        None => Ok(()),
    }
}

fn pieces_of_some<'a>(d: &'a Option<Box<Declr>>, todo: &mut Todo<'a>) -> Result<(), NoMemory>
    ensures { OnOk result (todo.new ≡ some_pieces (some_declr_from d.now) ++ todo.old) }
{
    match d {
        Some(d) => todo.pieces(d),
        None => Ok(()),
    }
}

pub(crate) fn some_size<'a>(
    size: &'a Option<ArraySize>,
    todo: &mut Todo<'a>,
) -> Result<(), NoMemory>
    ensures { OnOk result (todo.new ≡ some_size_tape (some_size_from size.now) ++ todo.old) }
{
    match size {
        Some(ArraySize::Value(e)) => todo.quiet(e),
        Some(ArraySize::Star { .. }) | None => Ok(()),
    }
}

fn stated_params<'a>(params: &'a [Param], todo: &mut Todo<'a>) -> Result<(), NoMemory>
    ensures { OnOk result
        (todo.new ≡ (if says_none (params_from params.now) then [] else params_tape
        (params_from params.now)) ++ todo.old) }
{
    if is_void_list(params) {
        Ok(())
    } else {
        todo.params(params)
    }
}

/// A list of parameters, and whether it is of a function with a body.
#[tactic(auto, using(crate::proofs::TodoLemmas::list_assoc))]
pub(crate) fn parameter_list<'a>(
    params: &'a Vec<Param>,
    is_own: bool,
    todo: &mut Todo<'a>,
) -> Result<(), NoMemory>
    ensures { OnOk result (todo.new ≡ params_with is_own (says_none (params_from params.now.items))
        (params_tape (params_from params.now.items)) ++ todo.old) }
{
    todo.declr_op(DeclrOp::ParamsEnd)?;
    stated_params(params.as_slice(), todo)?;
    todo.declr_op(DeclrOp::ParamsBegin { is_own })
}

/// The name, the parameters and the sizes of a declarator.
#[tactic(auto, using(crate::proofs::TodoLemmas::list_assoc))]
pub fn expand_contents<'a>(d: &'a Declr, is_own: bool, todo: &mut Todo<'a>) -> Result<(), NoMemory>
    ensures { OnOk result (todo.new ≡ contents is_own (declr_of d.now) ++ todo.old) }
{
    match declarator_shape(d) {
        DeclaratorShape::DeclName { token, name } => todo.declr_op(DeclrOp::DeclName {
            token,
            name,
        }),
        DeclaratorShape::Pointer { inner, .. } => todo.contents(inner, is_own),
        DeclaratorShape::DeclParen { inner, .. } => todo.contents(inner, is_own),
        DeclaratorShape::AbsParen { inner, .. } => todo.contents(inner, is_own),
        DeclaratorShape::Array { inner, size, .. } => {
            some_size(size, todo)?;
            todo.contents(inner, is_own)
        }
        DeclaratorShape::Params { inner, params, .. } => {
            parameter_list(params, is_own && is_name_alone(inner), todo)?;
            todo.contents(inner, is_own)
        }
        DeclaratorShape::Identifiers { inner, .. } => {
            todo.declr_op(DeclrOp::ParamsEnd)?;
            todo.declr_op(DeclrOp::ParamsBegin { is_own: false })?;
            todo.contents(inner, is_own)
        }
        DeclaratorShape::BaseName { .. } => Ok(()),
        DeclaratorShape::AbsPointer { inner, .. } => contents_of_some(inner, todo),
        DeclaratorShape::AbsArray { inner, size, .. } => {
            some_size(size, todo)?;
            contents_of_some(inner, todo)
        }
        DeclaratorShape::AbsParams { inner, params, .. } => {
            parameter_list(params, false, todo)?;
            contents_of_some(inner, todo)
        }
    }
}

fn dots<'a>(ellipsis: &'a Option<Ellipsis>, todo: &mut Todo<'a>) -> Result<(), NoMemory>
    ensures { OnOk result (todo.new ≡ dots_tape (option_map dots_of ellipsis.now) ++ todo.old) }
{
    match ellipsis {
        Some(ellipsis) => todo.quals(ellipsis.quals.as_slice()),
        None => Ok(()),
    }
}

/// What the type of a declarator is made of.
#[tactic(auto, using(crate::proofs::TodoLemmas::list_assoc))]
pub fn expand_pieces<'a>(d: &'a Declr, todo: &mut Todo<'a>) -> Result<(), NoMemory>
    ensures { OnOk result (todo.new ≡ pieces (declr_of d.now) ++ todo.old) }
{
    match declarator_shape(d) {
        DeclaratorShape::DeclName { .. } | DeclaratorShape::BaseName { .. } => Ok(()),
        DeclaratorShape::Identifiers { inner, .. } => {
            todo.pieces(inner)?;
            todo.declr_op(DeclrOp::Function {
                has_ellipsis: false,
            })
        }
        DeclaratorShape::DeclParen { inner, .. } => todo.pieces(inner),
        DeclaratorShape::AbsParen { inner, .. } => todo.pieces(inner),
        DeclaratorShape::Pointer { words, inner, .. } => {
            todo.pieces(inner)?;
            todo.declr_op(DeclrOp::Pointer)?;
            todo.pointer_words(words.as_slice())
        }
        DeclaratorShape::Array { inner, words, .. } => {
            todo.pieces(inner)?;
            todo.declr_op(DeclrOp::Array)?;
            todo.array_words(words.as_slice())
        }
        DeclaratorShape::Params {
            inner,
            params,
            ellipsis,
            ..
        } => {
            todo.pieces(inner)?;
            todo.declr_op(DeclrOp::Function {
                has_ellipsis: takes_more(params.as_slice(), ellipsis),
            })?;
            dots(ellipsis, todo)
        }
        DeclaratorShape::AbsPointer { words, inner, .. } => {
            pieces_of_some(inner, todo)?;
            todo.declr_op(DeclrOp::Pointer)?;
            todo.pointer_words(words.as_slice())
        }
        DeclaratorShape::AbsArray { inner, words, .. } => {
            pieces_of_some(inner, todo)?;
            todo.declr_op(DeclrOp::Array)?;
            todo.array_words(words.as_slice())
        }
        DeclaratorShape::AbsParams {
            inner,
            params,
            ellipsis,
            ..
        } => {
            pieces_of_some(inner, todo)?;
            todo.declr_op(DeclrOp::Function {
                has_ellipsis: takes_more(params.as_slice(), ellipsis),
            })?;
            dots(ellipsis, todo)
        }
    }
}

/// Parameters one after the other.
#[tactic(auto, using(crate::proofs::TodoLemmas::list_assoc))]
pub fn expand_params<'a>(params: &'a [Param], todo: &mut Todo<'a>) -> Result<(), NoMemory>
    ensures { OnOk result (todo.new ≡ params_tape (params_from params.now) ++ todo.old) }
{
    match params.split_first() {
        None => Ok(()),
        Some((param, rest)) => {
            todo.params(rest)?;
            todo.declr_op(DeclrOp::Param)?;
            some_declr(&param.declr, todo)?;
            specifiers(&param.specs.words, false, todo)
        }
    }
}

/// The words of a pointer.
#[tactic(auto, using(crate::proofs::TodoLemmas::list_assoc))]
pub fn expand_pointer_words<'a>(
    words: &'a [PointerWord],
    todo: &mut Todo<'a>,
) -> Result<(), NoMemory>
    ensures { OnOk result (todo.new ≡ pointer_words_tape words.now ++ todo.old) }
{
    match words.split_first() {
        None => Ok(()),
        Some((PointerWord::Attr(_), rest)) => todo.pointer_words(rest),
        Some((PointerWord::Qual(qual), rest)) => {
            todo.pointer_words(rest)?;
            todo.spec_op(SpecOp::Word {
                token: token_of_qual(qual),
            })
        }
    }
}

/// The words of an array.
#[tactic(auto, using(crate::proofs::TodoLemmas::list_assoc))]
pub fn expand_array_words<'a>(words: &'a [ArrayWord], todo: &mut Todo<'a>) -> Result<(), NoMemory>
    ensures { OnOk result (todo.new ≡ array_words_tape words.now ++ todo.old) }
{
    match words.split_first() {
        None => Ok(()),
        Some((ArrayWord::Static { .. }, rest)) => todo.array_words(rest),
        Some((ArrayWord::Qual(qual), rest)) => {
            todo.array_words(rest)?;
            todo.spec_op(SpecOp::Word {
                token: token_of_qual(qual),
            })
        }
    }
}

/// The qualifiers before `...`.
#[tactic(auto, using(crate::proofs::TodoLemmas::list_assoc))]
pub fn expand_quals<'a>(quals: &'a [Qual], todo: &mut Todo<'a>) -> Result<(), NoMemory>
    ensures { OnOk result (todo.new ≡ quals_tape quals.now ++ todo.old) }
{
    match quals.split_first() {
        None => Ok(()),
        Some((qual, rest)) => {
            todo.quals(rest)?;
            todo.spec_op(SpecOp::Word {
                token: token_of_qual(qual),
            })
        }
    }
}
