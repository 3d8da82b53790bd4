//! The text of a type round a name, with the words of its nodes (C99, 6.7.5).

ghost use Rattle.std.specs.Prelude.{◌≡◌, ◌<◌, ◌++◌, ◌∷◌, [], OnOk};
ghost use Rattle.lattice_core.specs.Order.{size};
ghost use Rattle.qual_types.specs.Rows.{params_from, skel_of};
ghost use Rattle.sig_writer.specs.Signatures as rules;
ghost use Rattle.sig_writer.specs.Halves.{before_text, behind_text, bracket, gap};
ghost use Rattle.sig_writer.specs.Saying.{AreOf};
ghost use Rattle.sig_writer.specs.Typing.{each_in, is_fun, numbers_text};
ghost use Rattle.sig_writer.specs.Typing.{space_before, space_behind, words_by, AreTyped};

use crate::says::{Elements, Said};
use annotate::{put, put_decimal};
use lattice_core::Lattice;
use qual_base::{Elem, NoMemory, SkelId, VarId};
use qual_types::{Kind, Look, VarTable};

/// A function's type: its nodes with what they say, and the names of elements.
#[derive(Clone, Copy)]
pub struct Typed<'a> {
    pub lattice: &'a Lattice,
    pub vars: &'a VarTable,
    pub said: &'a Said,
}

/// Where spaces stand round each word: before it or behind it.
#[derive(Clone, Copy)]
enum Space {
    Before,
    Behind,
}

fn put_space_before(out: &mut Vec<u8>, space: Space) -> Result<(), NoMemory>
    ensures { OnOk result (out.new.items ≡ out.old.items ++ space_before space) }
{
    match space {
        Space::Before => put(out, b" ")?,
        Space::Behind => {}
    }
    Ok(())
}

fn put_space_behind(out: &mut Vec<u8>, space: Space) -> Result<(), NoMemory>
    ensures { OnOk result (out.new.items ≡ out.old.items ++ space_behind space) }
{
    match space {
        Space::Before => {}
        Space::Behind => put(out, b" ")?,
    }
    Ok(())
}

/// An index word: a dollar sign, and each number behind an underscore.
fn put_numbers(out: &mut Vec<u8>, numbers: &[u32]) -> Result<(), NoMemory>
    ensures { OnOk result (out.new.items ≡ out.old.items ++ numbers_text numbers.now) }
{
    put(out, b"$")?;
    for number in numbers {
        put(out, b"_")?;
        put_decimal(out, u64::from(*number))?;
    }
    Ok(())
}

/// The index word of a node, where it has one, with its space.
fn put_index_word(out: &mut Vec<u8>, numbers: &[u32], space: Space) -> Result<(), NoMemory>
    ensures { OnOk result (out.new.items
        ≡ out.old.items ++ each_in space (rules.index_words numbers.now)) }
{
    if numbers.is_empty() {
        return Ok(());
    }
    put_space_before(out, space)?;
    put_numbers(out, numbers)?;
    put_space_behind(out, space)
}

/// The name of an element, with its space.
fn put_word(out: &mut Vec<u8>, typed: &Typed<'_>, elem: Elem, space: Space) -> Result<(), NoMemory>
    requires { elem < size typed.now.lattice.now.order }
    ensures { OnOk result (out.new.items ≡ out.old.items
        ++ each_in space (rules.name_of typed.now.lattice.now elem ∷ [])) }
{
    put_space_before(out, space)?;
    put(out, typed.lattice.name_of(elem))?;
    put_space_behind(out, space)
}

/// The names of the elements of a node, one where they are one, each with its space.
fn put_element_words(
    out: &mut Vec<u8>,
    typed: &Typed<'_>,
    elements: Elements,
    space: Space,
) -> Result<(), NoMemory>
    requires { AreOf typed.now.lattice.now.order elements }
    ensures { OnOk result (out.new.items ≡ out.old.items ++ each_in space
        (rules.element_words typed.now.lattice.now elements.low elements.high)) }
{
    match (elements.low, elements.high) {
        (None, None) => Ok(()),
        (Some(low), None) => put_word(out, typed, low, space),
        (None, Some(high)) => put_word(out, typed, high, space),
        (Some(low), Some(high)) => {
            put_word(out, typed, low, space)?;
            if low == high {
                return Ok(());
            }
            put_word(out, typed, high, space)
        }
    }
}

/// The words of a node, each with its space.
fn put_words(out: &mut Vec<u8>, typed: &Typed<'_>, at: VarId, space: Space) -> Result<(), NoMemory>
    requires { AreTyped typed.now }
    ensures { OnOk result (out.new.items ≡ out.old.items
        ++ each_in space (words_by typed.now at)) }
{
    put_index_word(out, typed.said.numbers(at), space)?;
    put_element_words(out, typed, typed.said.elements(at), space)
}

/// What a constructor without parts is called; each struct and union is one that is not defined.
pub(crate) fn kind_text(kind: Kind) -> &'static [u8]
    ensures { result.now ≡ rules.kind_text kind }
{
    match kind {
        Kind::Base => b"int",
        Kind::Void => b"void",
        Kind::Struct(_) => b"struct s",
        Kind::Nothing => b"",
    }
}

/// A space, where something stands behind.
fn put_gap(out: &mut Vec<u8>, is_round: bool) -> Result<(), NoMemory>
    ensures { OnOk result (out.new.items ≡ out.old.items ++ gap is_round) }
{
    if is_round {
        put(out, b" ")?;
    }
    Ok(())
}

/// Whether a skeleton is a function.
fn is_function(vars: &VarTable, at: SkelId) -> bool
    ensures { result ≡ is_fun (skel_of vars.now at) }
{
    match vars.look(at) {
        Look::Flat(_, _) => false,
        Look::Ref(_, _) => false,
        Look::Fun { .. } => true,
    }
}

/// A bracket, where a reference is to a function.
fn put_bracket(
    out: &mut Vec<u8>,
    typed: &Typed<'_>,
    inside: SkelId,
    sign: &[u8],
) -> Result<(), NoMemory>
    ensures { OnOk result (out.new.items
        ≡ out.old.items ++ bracket (skel_of typed.now.vars.now inside) sign.now) }
{
    if is_function(typed.vars, inside) {
        put(out, sign)?;
    }
    Ok(())
}

/// What stands before the text that a type is round; `is_round` says whether that is not empty. Linear in the type but
/// for its parameters.
#[tactic(auto, using(crate::proofs::Writing::list_assoc, crate::proofs::Writing::words_behind))]
fn put_before(
    out: &mut Vec<u8>,
    typed: &Typed<'_>,
    at: SkelId,
    is_round: bool,
) -> Result<(), NoMemory>
    requires { AreTyped typed.now }
    ensures { OnOk result (out.new.items ≡ out.old.items
        ++ before_text (words_by typed.now) (skel_of typed.now.vars.now at) is_round) }
{
    match typed.vars.look(at) {
        Look::Flat(var, kind) => {
            put_words(out, typed, var, Space::Behind)?;
            put(out, kind_text(kind))?;
            put_gap(out, is_round)
        }
        Look::Ref(var, inside) => {
            put_before(out, typed, inside, true)?;
            put_bracket(out, typed, inside, b"(")?;
            put(out, b"*")?;
            put_words(out, typed, var, Space::Before)?;
            put_gap(out, is_round)
        }
        Look::Fun { result, .. } => put_before(out, typed, result, true),
    }
}

/// What stands behind the text that a type is round. Linear in the type.
#[cycle(behind)]
fn put_behind(out: &mut Vec<u8>, typed: &Typed<'_>, at: SkelId) -> Result<(), NoMemory>
    requires { AreTyped typed.now }
    ensures { OnOk result (out.new.items ≡ out.old.items
        ++ behind_text (words_by typed.now) (skel_of typed.now.vars.now at)) }
{
    match typed.vars.look(at) {
        Look::Flat(_, _) => Ok(()),
        Look::Ref(_, inside) => {
            put_bracket(out, typed, inside, b")")?;
            put_behind(out, typed, inside)
        }
        Look::Fun {
            first,
            result,
            ellipsis,
            ..
        } => {
            put(out, b"(")?;
            put_params(out, typed, first, ellipsis)?;
            put(out, b")")?;
            put_behind(out, typed, result)
        }
    }
}

/// What stands between the brackets of a function: its parameters, and what stands for its further arguments.
#[cycle(behind)]
#[tactic(auto, using(crate::proofs::Writing::list_assoc))]
fn put_params(
    out: &mut Vec<u8>,
    typed: &Typed<'_>,
    first: SkelId,
    ellipsis: Option<VarId>,
) -> Result<(), NoMemory>
    requires { AreTyped typed.now }
    ensures { OnOk result (out.new.items ≡ out.old.items ++ rules.params_text
        (words_by typed.now) (params_from typed.now.vars.now first) ellipsis) }
{
    match typed.vars.next_part(first) {
        Some(next) => {
            put_round_nothing(out, typed, first)?;
            put_more(out, typed, next, ellipsis)
        }
        None => put_no_params(out, ellipsis),
    }
}

/// What stands behind a parameter: the others, each behind a comma, and what stands for further arguments.
#[cycle(behind)]
#[tactic(auto, using(crate::proofs::Writing::list_assoc))]
fn put_more(
    out: &mut Vec<u8>,
    typed: &Typed<'_>,
    first: SkelId,
    ellipsis: Option<VarId>,
) -> Result<(), NoMemory>
    requires { AreTyped typed.now }
    ensures { OnOk result (out.new.items ≡ out.old.items ++ rules.more_text
        (words_by typed.now) (params_from typed.now.vars.now first) ellipsis) }
{
    let mut at = first;
    while let Some(next) = typed.vars.next_part(at) {
        put(out, b", ")?;
        put_round_nothing(out, typed, at)?;
        at = next;
    }
    put_ellipsis(out, typed, ellipsis)
}

/// The text of a type round nothing.
#[cycle(behind)]
#[tactic(auto, using(crate::proofs::Writing::list_assoc, crate::proofs::Halves::round_nothing))]
fn put_round_nothing(out: &mut Vec<u8>, typed: &Typed<'_>, at: SkelId) -> Result<(), NoMemory>
    requires { AreTyped typed.now }
    ensures { OnOk result (out.new.items ≡ out.old.items
        ++ rules.type_text (words_by typed.now) (skel_of typed.now.vars.now at) []) }
{
    put_before(out, typed, at, false)?;
    put_behind(out, typed, at)
}

/// A function without parameters has none, or any.
fn put_no_params(out: &mut Vec<u8>, ellipsis: Option<VarId>) -> Result<(), NoMemory>
    ensures { OnOk result (out.new.items ≡ out.old.items ++ rules.no_params_text ellipsis) }
{
    if ellipsis.is_none() {
        put(out, b"void")?;
    }
    Ok(())
}

/// What stands for further arguments behind parameters, with its words, where there may be some.
fn put_ellipsis(
    out: &mut Vec<u8>,
    typed: &Typed<'_>,
    ellipsis: Option<VarId>,
) -> Result<(), NoMemory>
    requires { AreTyped typed.now }
    ensures { OnOk result (out.new.items
        ≡ out.old.items ++ rules.ellipsis_text (words_by typed.now) ellipsis) }
{
    if let Some(at) = ellipsis {
        put(out, b", ")?;
        put_words(out, typed, at, Space::Behind)?;
        put(out, b"...")?;
    }
    Ok(())
}

/// The text of a type round a name. Linear in the text.
pub fn put_type(
    out: &mut Vec<u8>,
    typed: &Typed<'_>,
    at: SkelId,
    name: &[u8],
) -> Result<(), NoMemory>
    requires { AreTyped typed.now }
    ensures { OnOk result (out.new.items ≡ out.old.items
        ++ rules.type_text (words_by typed.now) (skel_of typed.now.vars.now at) name.now) }
{
    put_before(out, typed, at, !name.is_empty())?;
    put(out, name)?;
    put_behind(out, typed, at)
}
