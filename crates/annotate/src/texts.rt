//! The lines of the reports.

ghost use Rattle.std.specs.Prelude.{◌≡◌, ◌++◌, OnOk, Some, codes};
ghost use Rattle.std.specs.Fmt.{decimal};
ghost use Rattle.annotate.specs.Texts.{place_text, name_text, step_mark, marks_text, var_text};
ghost use Rattle.annotate.specs.Texts.{elem_text, link_text, constraint_text, value_line};
ghost use Rattle.annotate.specs.Texts.{error_line, place_in, bytes_in, unit_in};
ghost use Rattle.annotate.specs.Scenes.{unit_of, Writes};

use crate::places::{put, put_decimal, put_spot};
use crate::scene::{Scene, UnitText, bytes_of, name_of, unit_at};
use flow_graph::{Constraint, Link};
use qual_base::{EdgeId, Elem, LatticeNo, NoMemory, Numbered, Span, TokenId, UnitNo, VarId};
use qual_types::Step;
use std::alloc::AllocError;

/// FILE:LINE:COLUMN of a token of a unit; nothing where there is no such token.
fn put_place_in(out: &mut Vec<u8>, unit: &UnitText<'_>, token: TokenId) -> Result<(), AllocError>
    ensures { OnOk result
        (out.new.items ≡ out.old.items ++ place_in (Some (unit_of unit.now)) token) }
{
    if token.number() >= unit.tokens.len() {
        return Ok(());
    }
    let spot = unit.tokens.place_of(token);
    put_spot(out, unit.file, unit.tokens.unit_bytes(), &spot)
}

/// FILE:LINE:COLUMN of a token, by the numbers of its unit and of itself; nothing where it is not there. Beside its place and
/// text, constant where the units are in the order of their numbers and none is left out, and linear in their number otherwise.
fn put_place(
    out: &mut Vec<u8>,
    scene: &Scene<'_>,
    unit: UnitNo,
    token: TokenId,
) -> Result<(), AllocError>
    ensures { OnOk result
        (Writes scene.now out.old.items out.new.items (λ s. place_text s unit token)) }
{
    match unit_at(scene.units, unit) {
        Some(found) => put_place_in(out, &found, token),
        None => Ok(()),
    }
}

/// The bytes of a token, by the numbers of its unit and of itself; nothing where it is not there. Linear in them, and its unit
/// is found as that of `put_place`.
fn put_bytes(
    out: &mut Vec<u8>,
    scene: &Scene<'_>,
    unit: UnitNo,
    token: TokenId,
) -> Result<(), AllocError>
    ensures { OnOk result
        (Writes scene.now out.old.items out.new.items
        (λ s. bytes_in (unit_in s.units unit) token)) }
{
    match unit_at(scene.units, unit) {
        Some(found) => put(out, bytes_of(&found, token)),
        None => Ok(()),
    }
}

/// NAME@FILE:LINE:COLUMN of a token.
fn put_name(
    out: &mut Vec<u8>,
    scene: &Scene<'_>,
    unit: UnitNo,
    token: TokenId,
) -> Result<(), AllocError>
    ensures { OnOk result
        (Writes scene.now out.old.items out.new.items (λ s. name_text s unit token)) }
{
    put_bytes(out, scene, unit, token)?;
    put(out, b"@")?;
    put_place(out, scene, unit, token)
}

/// A step to a variable inside a type.
fn put_step_mark(out: &mut Vec<u8>, step: Step) -> Result<(), AllocError>
    ensures { OnOk result (out.new.items ≡ out.old.items ++ step_mark step) }
{
    match step {
        Step::Inside => put(out, b".in"),
        Step::Param(number) => {
            put(out, b".")?;
            put_decimal(out, u64::from(number) + 1)
        }
        Step::Result => put(out, b".res"),
        Step::Ellipsis => put(out, b".etc"),
    }
}

/// The steps to a variable inside a type.
pub fn put_marks(out: &mut Vec<u8>, path: &[Step]) -> Result<(), AllocError>
    ensures { OnOk result (out.new.items ≡ out.old.items ++ marks_text path.now) }
{
    for step in path {
        put_step_mark(out, *step)?;
    }
    Ok(())
}

/// A variable: the name where it stands, and the steps to it; nothing past the table of variables. Linear in its text but
/// for its path, whose steps are found in turn.
pub fn put_var(out: &mut Vec<u8>, scene: &Scene<'_>, var: VarId) -> Result<(), NoMemory>
    ensures { OnOk result
        (Writes scene.now out.old.items out.new.items (λ s. var_text s var)) }
{
    if var.number() >= scene.vars.count() {
        return Ok(());
    }
    let position = scene.vars.position(*out.allocator(), var)?;
    put_name(out, scene, position.unit, position.token)?;
    put_marks(out, &position.path)?;
    Ok(())
}

/// The name of an element of a lattice; nothing where there is no such lattice or element.
pub fn put_elem(
    out: &mut Vec<u8>,
    scene: &Scene<'_>,
    lattice: LatticeNo,
    elem: Elem,
) -> Result<(), AllocError>
    ensures { OnOk result
        (Writes scene.now out.old.items out.new.items (λ s. elem_text s lattice elem)) }
{
    put(out, name_of(scene.lattices, lattice, elem))
}

/// Two variables, with a word before the first.
fn put_flow(
    out: &mut Vec<u8>,
    scene: &Scene<'_>,
    word: &[u8],
    from: VarId,
    to: VarId,
) -> Result<(), NoMemory>
    ensures { OnOk result (Writes scene.now out.old.items out.new.items
        (λ s. word.now ++ var_text s from ++ codes " to " ++ var_text s to)) }
{
    put(out, word)?;
    put_var(out, scene, from)?;
    put(out, b" to ")?;
    put_var(out, scene, to)
}

/// A constant in a variable.
fn put_const(
    out: &mut Vec<u8>,
    scene: &Scene<'_>,
    lattice: LatticeNo,
    elem: Elem,
    var: VarId,
) -> Result<(), NoMemory>
    ensures { OnOk result (Writes scene.now out.old.items out.new.items
        (λ s. codes "const " ++ elem_text s lattice elem ++ codes " in " ++ var_text s var)) }
{
    put(out, b"const ")?;
    put_elem(out, scene, lattice, elem)?;
    put(out, b" in ")?;
    put_var(out, scene, var)
}

/// A bound of a variable.
fn put_bound(
    out: &mut Vec<u8>,
    scene: &Scene<'_>,
    var: VarId,
    lattice: LatticeNo,
    elem: Elem,
) -> Result<(), NoMemory>
    ensures { OnOk result (Writes scene.now out.old.items out.new.items
        (λ s. codes "bound " ++ var_text s var ++ codes " by " ++ elem_text s lattice elem)) }
{
    put(out, b"bound ")?;
    put_var(out, scene, var)?;
    put(out, b" by ")?;
    put_elem(out, scene, lattice, elem)?;
    Ok(())
}

/// What a constraint says.
fn put_link(out: &mut Vec<u8>, scene: &Scene<'_>, link: Link) -> Result<(), NoMemory>
    ensures { OnOk result
        (Writes scene.now out.old.items out.new.items (λ s. link_text s link)) }
{
    match link {
        Link::Le(from, to) => put_flow(out, scene, b"flow ", from, to),
        Link::Const(lattice, elem, var) => put_const(out, scene, lattice, elem, var),
        Link::Bound(var, lattice, elem) => put_bound(out, scene, var, lattice, elem),
        Link::Enter(_, from, to) => put_flow(out, scene, b"enter ", from, to),
        Link::Leave(_, from, to) => put_flow(out, scene, b"leave ", from, to),
    }
}

/// The number and the place before what a constraint says.
fn put_number(
    out: &mut Vec<u8>,
    scene: &Scene<'_>,
    number: EdgeId,
    span: &Span,
) -> Result<(), NoMemory>
    ensures { OnOk result (Writes scene.now out.old.items out.new.items (λ s. codes "  "
        ++ decimal number ++ codes " " ++ place_text s span.now.unit span.now.from ++ codes " ")) }
{
    put(out, b"  ")?;
    put_decimal(out, u64::from(number.number()))?;
    put(out, b" ")?;
    put_place(out, scene, span.unit, span.from)?;
    put(out, b" ")?;
    Ok(())
}

/// The line of a constraint.
pub fn put_constraint(
    out: &mut Vec<u8>,
    scene: &Scene<'_>,
    number: EdgeId,
    constraint: &Constraint,
) -> Result<(), NoMemory>
    ensures { OnOk result (Writes scene.now out.old.items out.new.items
        (λ s. constraint_text s number (Some constraint.now))) }
{
    put_number(out, scene, number, &constraint.span)?;
    put_link(out, scene, constraint.link)?;
    put(out, b"\n")?;
    Ok(())
}

/// The line of a variable with its element in a lattice.
pub fn put_value(
    out: &mut Vec<u8>,
    scene: &Scene<'_>,
    lattice: LatticeNo,
    var: VarId,
    elem: Elem,
) -> Result<(), NoMemory>
    ensures { OnOk result
        (Writes scene.now out.old.items out.new.items (λ s. value_line s lattice var elem)) }
{
    put_var(out, scene, var)?;
    put(out, b" ")?;
    put_elem(out, scene, lattice, elem)?;
    put(out, b"\n")?;
    Ok(())
}

/// The line of a bound of a lattice that an element exceeds.
pub fn put_error(
    out: &mut Vec<u8>,
    scene: &Scene<'_>,
    lattice: LatticeNo,
    elem: Elem,
    bound: Elem,
    span: &Span,
) -> Result<(), NoMemory>
    ensures { OnOk result (Writes scene.now out.old.items out.new.items
        (λ s. error_line s lattice elem bound span.now)) }
{
    put(out, b"error ")?;
    put_elem(out, scene, lattice, elem)?;
    put(out, b" exceeds ")?;
    put_elem(out, scene, lattice, bound)?;
    put(out, b" at ")?;
    put_place(out, scene, span.unit, span.from)?;
    put(out, b"\n")?;
    Ok(())
}
